//! Rows of the command line, of the files of `data/`: files in memory, words, what they result in and what they leave.
#![tactic(auto)]

mod asked;
mod rows;
mod words;

use md_outer::{Depot, FileDepot};
use row_files::Store;
use row_lines::Tally;
use rows::{Running, carry_out};
use std::alloc::{AllocError, Global};
use std::io;
use std::rt::Files;
use std::sync::Wait;
use std::thread::Threads;

/// The files of rows, in their order: what one keeps, those after it may copy.
const FILES: [&str; 9] = [
    "cartridges",
    "runs",
    "refusals",
    "recordings",
    "states",
    "hostile",
    "conversions",
    "sessions",
    "words",
];

/// The longest file of rows.
const LONGEST: u64 = 1 << 20;

/// The text of a file of rows; where there is none, a line that is none of the language.
fn text_of<D: Depot>(alloc: Global, folder: &mut D, name: &str) -> Result<Vec<u8>, AllocError> {
    match folder.fetch(alloc, name, LONGEST) {
        Ok(bytes) => Ok(bytes),
        Err(_) => b"no such file".to_vec(alloc),
    }
}

/// Carries out the rows of a file.
fn take_file<R: Files + Drop, T: Print + Threads + Wait + Sync>(
    rt: &T,
    running: &mut Running<R>,
    name: &str,
) -> io::Result<()> {
    let text = text_of(running.alloc, &mut running.folder, name)?;
    carry_out(rt, running, str::from_utf8(&text).unwrap_or("no text"))
}

/// Carries out the rows of all files, and prints how many there were.
fn take_files<R: Files + Drop, T: Print + Threads + Wait + Sync>(
    rt: &T,
    running: &mut Running<R>,
) -> io::Result<()> {
    for name in &FILES {
        take_file(rt, running, name)?;
    }
    running.tally.end(rt)
}

fn main(rt: HostRuntime) -> io::Result<()> {
    let alloc = rt.alloc();
    let mut running = Running {
        alloc,
        folder: FileDepot::new(rt, alloc),
        store: Store::new(alloc),
        tally: Tally::new(alloc),
    };
    take_files(&rt, &mut running)
}

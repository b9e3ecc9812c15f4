//! Rows of files and of the small parts: prints what is wrong, and how many rows there are.
#![tactic(auto)]

mod cartridges;
mod depots;
mod fixture;
mod kept;
mod lines;
mod pads;
mod players;
mod replies;
mod rings;

use fixture::Parts;
use row_lines::take_files;
use std::io;

/// The files of rows.
const FILES: [&str; 6] = [
    "cartridges",
    "depots",
    "pads",
    "kept",
    "debugger",
    "players",
];

fn main(rt: HostRuntime) -> io::Result<()> {
    let alloc = rt.alloc();
    let mut parts = Parts::new(alloc);
    take_files(&rt, alloc, &mut parts, &FILES)
}

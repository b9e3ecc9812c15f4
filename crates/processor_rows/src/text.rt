//! Rows of the texts of instructions of both processors, read both ways, and of sources of the assembler.

mod coded;
mod pattern;
mod ranges;
mod setup;
mod sources;

use crate::text::setup::Setup;
use row_lines::take_files;
use std::alloc::Global;
use std::io;
use std::rt::Files;

/// The files of rows.
const FILES: [&str; 5] = [
    "text/m68k",
    "text/z80",
    "text/ranges",
    "text/images",
    "text/faults",
];

/// Carries out the rows, and prints what is wrong and how many rows there are.
pub fn take_rows<R: Print + Files + AllocGlobal>(rt: &R, alloc: Global) -> io::Result<()> {
    let mut setup = Setup::new(alloc);
    take_files(rt, alloc, &mut setup, &FILES)
}

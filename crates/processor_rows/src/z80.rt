//! Rows of the Z80: its instructions, its registers and its RAM, its events, and its bytes in a saved state.

mod events;
mod fixture;
mod instructions;
mod memory;
mod registers;
mod samples;
mod setting;

use crate::z80::fixture::Z80;
use row_lines::take_files;
use std::alloc::Global;
use std::io;
use std::rt::Files;

/// The files of rows.
const FILES: [&str; 7] = [
    "z80/encodings",
    "z80/loads",
    "z80/operations",
    "z80/control",
    "z80/parts",
    "z80/events",
    "z80/states",
];

/// Carries out the rows, and prints what is wrong and how many rows there are.
pub fn take_rows<R: Print + Files + AllocGlobal>(rt: &R, alloc: Global) -> io::Result<()> {
    match Z80::new(alloc) {
        Ok(mut fixture) => take_files(rt, alloc, &mut fixture, &FILES),
        Err(error) => println!(rt; "{}", error.text()),
    }
}

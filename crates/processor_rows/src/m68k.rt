//! Rows of the 68000: samples, operands, arithmetic, decoding, exceptions, clocks, the chip and the bytes that keep it.

mod arithmetic;
mod asked;
mod board;
mod changes;
mod events;
mod plain;
mod registers;
mod requests;
mod sample;
mod setup;

use crate::m68k::setup::Setup;
use row_lines::take_files;
use std::alloc::Global;
use std::io;
use std::rt::Files;

/// The files of rows.
const FILES: [&str; 8] = [
    "m68k/samples",
    "m68k/operands",
    "m68k/arithmetic",
    "m68k/decoding",
    "m68k/exceptions",
    "m68k/clocks",
    "m68k/chip",
    "m68k/states",
];

/// Carries out the rows, and prints what is wrong and how many rows there are.
pub fn take_rows<R: Print + Files + AllocGlobal>(rt: &R, alloc: Global) -> io::Result<()> {
    let mut setup = Setup::new(alloc);
    take_files(rt, alloc, &mut setup, &FILES)
}

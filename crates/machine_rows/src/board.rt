//! Rows of the board: accesses of both processors with their answers and entries, lines, batches, pins and saved states.

mod batches;
mod fixture;
mod lines;
mod processors;
mod saved;

use crate::board::fixture::Board;
use row_lines::take_files;
use std::alloc::Global;
use std::io;
use std::rt::Files;

/// The files of rows.
const FILES: [&str; 6] = [
    "board/registers",
    "board/z80",
    "board/fm",
    "board/video",
    "board/states",
    "board/ahead",
];

/// Carries out the rows, and prints what is wrong and how many rows there are.
pub fn take_rows<R: Print + Files + AllocGlobal>(rt: &R, alloc: Global) -> io::Result<()> {
    let mut board = Board::power_on(alloc)?;
    take_files(rt, alloc, &mut board, &FILES)
}

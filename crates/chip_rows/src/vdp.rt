//! Rows of the VDP: registers, ports, memories, lines, the picture and saved states.

mod field;
mod line_buffer;
mod ports;
mod renderer_state;
mod saved;
mod time;
mod video;

use crate::vdp::video::Video;
use row_lines::take_files;
use std::alloc::Global;
use std::io;
use std::rt::Files;

/// The files of rows.
const FILES: [&str; 8] = [
    "vdp/ports",
    "vdp/dma",
    "vdp/time",
    "vdp/planes",
    "vdp/sprites",
    "vdp/picture",
    "vdp/states",
    "vdp/ahead",
];

/// Carries out the rows, and prints what is wrong and how many rows there are.
pub fn take_rows<R: Print + Files + AllocGlobal>(rt: &R, alloc: Global) -> io::Result<()> {
    let mut video = Video::power_on(alloc)?;
    take_files(rt, alloc, &mut video, &FILES)
}

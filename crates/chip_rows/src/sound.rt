//! Rows of the sound chips: their ports, their samples and their bytes in a saved state, and VGM files.

mod chips;
mod fixture;
mod states;
mod vgm;
mod voices;

use crate::sound::chips::Sound;
use row_lines::take_files;
use std::alloc::Global;
use std::io;
use std::rt::Files;

/// The files of rows.
const FILES: [&str; 6] = [
    "sound/voices",
    "sound/chips",
    "sound/states",
    "sound/making",
    "sound/playing",
    "sound/heads",
];

/// Carries out the rows, and prints what is wrong and how many rows there are.
pub fn take_rows<R: Print + Files + AllocGlobal>(rt: &R, alloc: Global) -> io::Result<()> {
    let mut fixture = Sound::power_on(alloc);
    take_files(rt, alloc, &mut fixture, &FILES)
}

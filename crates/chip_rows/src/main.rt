//! Rows of the VDP and of the sound chips: prints for each group what is wrong, and how many rows there are.
#![tactic(auto)]

mod sound;
mod vdp;

use std::io;

fn main(rt: HostRuntime) -> io::Result<()> {
    let alloc = rt.alloc();
    vdp::take_rows(&rt, alloc)?;
    sound::take_rows(&rt, alloc)
}

//! Rows of both processors, and of the texts of their instructions: prints for each group what is wrong, and how many
//! rows there are.
#![tactic(auto)]

mod m68k;
mod text;
mod z80;

use std::io;

fn main(rt: HostRuntime) -> io::Result<()> {
    let alloc = rt.alloc();
    m68k::take_rows(&rt, alloc)?;
    z80::take_rows(&rt, alloc)?;
    text::take_rows(&rt, alloc)
}

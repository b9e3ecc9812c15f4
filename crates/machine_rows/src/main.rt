//! Rows of the board and of the machine: prints for each group what is wrong, and how many rows there are.
#![tactic(auto)]

mod board;
mod machine;

use std::io;

fn main(rt: HostRuntime) -> io::Result<()> {
    let alloc = rt.alloc();
    board::take_rows(&rt, alloc)?;
    machine::take_rows(&rt, alloc)
}

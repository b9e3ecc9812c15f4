//! The arithmetic of the Z80: the value and the flags of every operation.
#![tactic(auto)]

mod arithmetic;
mod decimal;
mod flags80;
pub mod laws;
mod logic;
mod out16;
mod out80;
mod pairs;
mod shifts;
mod tasks;
mod transfers;

pub use flags80::Flags80;
pub use md_word::{Bit, Task80};
pub use out16::Out16;
pub use out80::Out80;
pub use pairs::{add_pair, add_pair_with_carry, subtract_pair_with_carry};
pub use shifts::{rld_memory, rrd_memory};
pub use tasks::compute;
pub use transfers::{block_compared, block_loaded, block_passed, special_loaded};

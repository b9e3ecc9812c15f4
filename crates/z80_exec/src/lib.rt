//! What the Z80 does at a sample: an instruction or an interrupt, over private memory, the answers of
//! its shared accesses so far, and the bytes written so far.
#![tactic(auto)]

mod access;
pub mod laws;
mod regs80;
mod rows;
mod sample;

use access::view::Context;
pub use access::view::Progress80;
pub use access::waiting::Waiting;
pub use regs80::Regs80;
pub use sample::cache::DecodeCache80;
pub use sample::private::run_private;
pub use sample::step::{Finish80, Predicted80, Step80};
pub use sample::{go, predict};

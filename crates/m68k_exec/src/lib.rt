//! What the 68000 does at a sample: an instruction, an exception, a trace or an interrupt, over
//! private memory, the answers of its shared accesses so far, and the bytes written so far.
#![tactic(auto)]

pub mod laws;
mod rows;
mod sample;

pub use m68k_access::Progress;
pub use m68k_access::memory::word_at;
use m68k_access::{Context, Outcome, Stop};
pub use sample::cache::DecodeCache;
pub use sample::step::{Finish, Predicted, PrivateStep, Step};
pub use sample::{go, predict, predict_cached, run_private};

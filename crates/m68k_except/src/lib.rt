//! The exceptions of the 68000: what is pushed, and when it halts.
#![tactic(auto)]

mod answer;
mod exception;

pub use answer::Frame;
pub use exception::frame;

//! The Z80 as a chip with events: a sample of its pins at the start of an instruction, an access to
//! what other chips share, or the handing over of its RAM.
#![tactic(auto)]

mod accesses;
mod case;
mod chip;
mod execution;
mod known;
mod need;
mod numbers;
mod resuming;
mod samples;
mod saved;
mod sequencer;
mod spelling;
mod stage;

pub use chip::Chip80;
pub use spelling::{FULL_SIZE, RAM_OFFSET};

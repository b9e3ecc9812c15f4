//! The 68000 as a chip with events: a sample of the interrupt level at the start of an instruction,
//! an access to what other chips share, or a word of a transfer.
#![tactic(auto)]

mod accesses;
mod answer_ahead;
mod case;
mod chip;
mod execution;
mod iteration;
mod known;
mod numbers;
mod reading;
mod repetition;
mod resuming;
mod sample_ahead;
mod samples;
mod saved;
mod saved_fields;
mod sequencer;
mod spelling;
mod stage;
mod watched;

pub use chip::Chip68;
pub use saved::CHIP_SIZE;

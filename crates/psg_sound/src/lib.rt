//! The programmable sound generator (PSG): the port that takes its writes, and the synthesis of its level.
#![tactic(auto)]

mod amplitude;
mod divider;
mod noise;
mod port;
mod saved_port;
mod saved_synth;
mod spelling;
mod synth;
mod tone;
mod write;

pub use port::PsgPort;
pub use spelling::{PORT_SIZE, SYNTH_SIZE};
pub use synth::PsgSynth;
pub use write::{PsgList, PsgWrite};

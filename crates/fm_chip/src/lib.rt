//! The synthesis of the FM chip: its samples, from the writes that its port took.
#![tactic(auto)]

mod channels;
mod converter;
mod frequency;
mod kept;
mod keys;
mod latch;
mod lfo;
mod mixing;
mod operator;
mod registers;
mod saved_operator;
mod saved_synth;
mod shapes;
mod spelling;
mod steps;
mod synth;

pub use channels::Channel;
pub use operator::Operator;
pub use spelling::SYNTH_SIZE;
pub use synth::FmSynth;

//! The voices of the FM chip: the step of a phase, the wave of an operator, its envelope with its
//! tick and its key, and a channel of four operators.
#![tactic(auto)]

mod envelope;
mod oscillator;
mod phase;
mod routes;
mod table;
mod voice;

pub use envelope::Envelope;
pub use envelope::state::EnvelopeState;
pub use oscillator::{SILENT, wave};
pub use phase::{key_code, step_of};
pub use voice::channel;

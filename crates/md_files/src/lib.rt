//! The files that a run writes, record by record, and the pair of samples of both sound chips.
#![tactic(auto)]

mod journal;
mod pair;
mod ppm;
mod put;
mod wav;

pub use journal::put_entry;
pub use pair::mix;
pub use ppm::{ppm_head, put_frame};
pub use wav::{put_pair, wav_head};

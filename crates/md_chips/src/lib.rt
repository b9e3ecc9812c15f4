//! The five chips of the machine on one board, as a set for the scheduler.
#![tactic(auto)]

mod batches;
mod chips;
mod drains;
mod first;
pub mod laws;
mod least;
mod parts;
mod pins;
mod runs;
mod set;
mod shown;

pub use chips::Chip;
pub use drains::{empty_chip, frame_in, levels_in, sides_in};
pub use first::first_core;
pub use least::least_key;
pub use parts::{bounds_of, chips_of, first_batch};
pub use pins::Pins;
pub use runs::run_alone;
pub use set::MdChips;
pub use shown::{fm_in, main_in, psg_in, renderer_in, sub_in};

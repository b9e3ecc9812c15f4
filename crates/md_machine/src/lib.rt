//! The machine of five chips.
#![tactic(auto)]

mod drains;
pub mod laws;
mod machine;
mod parts;
mod runs;
mod shown;

pub use machine::{Machine, most_entries, most_pairs};
pub use md_chips::{MdChips, Pins, first_batch, first_core};

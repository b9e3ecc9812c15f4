//! Saved states: the bytes of a machine at a cycle, and the machine that such bytes keep.
#![tactic(auto)]

mod fault;
mod items;
mod joining;
pub mod laws;
mod layout;
mod reading;
mod version;
mod writing;

pub use fault::StateFault;
pub use layout::{APART, LENGTH};
pub use reading::{read, read_with};
pub use writing::{spell, write, write_with};

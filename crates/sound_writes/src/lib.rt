//! Writes with stamps, of any kind, to a chip of any kind: definitions and lemmas that the crates of
//! the sound chips share, and the keys of the writes that a saved state keeps.
#![tactic(auto)]

mod earliest;
mod padding;
mod saved;

pub use earliest::{Earliest, is_before_next};
pub use padding::{put_count, put_zeros};
pub use saved::{
    MOST, WriteEntry, are_before_next, are_saved, known_writes, put_writes, read_writes, take_below,
};

//! The fields of a saved state: their bytes, their places, and the first one whose rule fails.
#![tactic(auto)]

mod field;
mod reading;
mod rules;
mod writing;

pub use field::{Field, first_invalid};
pub use reading::{u8_at, u16_at, u32_at, u64_at, words_at};
pub use rules::{are_zero_words, are_zeros, is_after, is_soon};
pub use writing::put;

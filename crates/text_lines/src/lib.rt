//! The lines of a text, and words of digits.
#![tactic(auto)]

mod digits;
mod lines;
mod numbered_lines;

pub use digits::{
    are_decimal, are_hexadecimal, are_lower_hexadecimal, is_hexadecimal, is_lower_hexadecimal,
    read_decimal,
};
pub use lines::first_line;
pub use numbered_lines::NumberedLines;

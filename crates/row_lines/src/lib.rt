//! Rows of data files: what a line says, its numbers and bytes, and the count of rows and of wrong ones.
#![tactic(auto)]

mod answer;
mod buffer;
mod fixture;
mod kinds;
mod line;
mod numbers;
mod piece;
mod repeat;
mod row_error;
mod tally;
mod texts;
mod words;

pub use answer::Answer;
pub use buffer::Buffer;
pub use fixture::{Fixture, take_files};
pub use kinds::arguments;
pub use line::{Line, is_wanted, line_of};
pub use numbers::{byte, bytes, hexadecimal, long, number, readable, word};
pub use piece::{compared, part_of, pieces, put, put_bytes, rest_of};
pub use repeat::{place_of, push, repeated, repeats};
pub use row_error::RowError;
pub use tally::Tally;
pub use texts::{append, decimal_of, digits_of, long_of, text_of};
pub use words::{first_word, parted};

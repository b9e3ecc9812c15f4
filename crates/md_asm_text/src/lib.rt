//! The lines of a source and the texts in them: what a line holds, its tokens, its operands, and whether two texts are
//! the same.
#![tactic(auto)]

mod body;
mod characters;
mod comparing;
mod cutting;
mod directives;
mod line;
mod operands;
mod splitter;
mod token;
mod trimming;
mod words;

pub use body::Body;
pub use comparing::same;
pub use line::{Line, read_line};
pub use operands::{first_operand, second_operand};
pub use splitter::split;
pub use token::Token;
pub use words::is_name;

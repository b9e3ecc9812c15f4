//! The arithmetic of the 68000: the value and the condition codes of every operation.
#![tactic(auto)]

mod arithmetic;
mod bits;
mod decimal;
mod division;
mod logic;
mod out;
mod quotient;
mod results;
mod shifts;
mod tasks;

pub use division::divide;
pub use md_word::{Task, extend};
pub use out::Out;
pub use quotient::Quotient;
pub use tasks::compute;

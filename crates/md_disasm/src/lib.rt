//! The text of an instruction of either processor, as an assembler reads it.
#![tactic(auto)]

mod digits;
pub mod laws;
mod list68;
mod m68k;
mod names68;
mod names80;
mod operand68;
mod operand80;
mod rows68;
mod rows80;
mod syntax68;
mod syntax80;
mod z80;

pub use digits::{put_marked_byte, put_marked_digit, put_marked_long, put_marked_word};
pub use m68k::text68;
pub use operand68::Operand68;
pub use operand80::Operand80;
pub use z80::text80;

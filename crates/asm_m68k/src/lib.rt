//! The assembler's side of the 68000: the words of an instruction, the forms of its operands, and the instruction that
//! a text names. Tables and forms are those of the M68000 Programmer's Reference Manual.
#![tactic(auto)]

mod building;
mod check_round_trip;
mod codes;
mod encoder;
pub mod encoding_laws;
mod extension;
mod first;
mod form;
mod form_values;
mod mnemonic;
mod opcode;
mod reader;
mod reading;
pub mod reading_laws;
mod stems;

pub use check_round_trip::words_of;
pub use encoder::encode;
pub use form::Form;
pub use reader::{Source, read};

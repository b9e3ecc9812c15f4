//! The assembler's side of the Z80: the bytes of an instruction, the forms of its operands, and the instruction that a
//! text names. Tables are those of Zilog UM0080, and for what it leaves out this project's profile.
#![tactic(auto)]

mod building;
mod check_round_trip;
mod codes;
mod encoder;
pub mod encoding_laws;
mod form;
mod form_values;
mod mnemonic;
mod opcode;
mod operand_bytes;
mod reader;
pub mod reading_laws;
mod stems;
mod words;

pub use check_round_trip::bytes_of;
pub use encoder::encode;
pub use operand_bytes::Bytes;

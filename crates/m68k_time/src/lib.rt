//! The times of the 68000's instructions and exceptions.
#![tactic(auto)]

mod address;
mod control;
mod exception;
mod instruction;

pub use instruction::clocks;

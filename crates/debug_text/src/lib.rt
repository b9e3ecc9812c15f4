//! The debugger's texts: the commands that lines spell, and the replies to them. No machine is below it.
#![tactic(auto)]

mod command;
mod cycle;
mod line;
mod memory;
mod number;
mod outcome;
mod registers;
mod report;
mod trace;

pub use command::{Command, Misread};
pub use cycle::put_cycle;
pub use line::{following, is_ascii, read_command, word_in};
pub use memory::{byte_reply, instruction_reply};
pub use outcome::{ScriptOutcome, script_outcome_of};
pub use registers::register_reply;
pub use report::report_reply;
pub use trace::address_reply;

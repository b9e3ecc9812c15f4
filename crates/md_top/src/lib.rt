//! The emulator's command line: from its words to the bytes that a run writes.
#![tactic(auto)]

mod assembling;
mod begun_run;
mod command_outcome;
mod converting;
mod debugging;
mod demo;
mod finishing;
pub mod laws;
mod loading;
mod prepared;
mod preparing;
mod put;
mod reading;
mod report;
mod report_demo;
mod rolling;
mod text;
mod top;

pub use finishing::{finish, finish_one};
pub use md_demo::demo_cart;
pub use prepared::Prepared;
pub use preparing::prepare;
pub use top::{drive, drive_one};

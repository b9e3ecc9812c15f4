//! The demonstration cartridge: a program and data that a number chooses, for runs that need no file.
#![tactic(auto)]

mod cart;
mod program;
mod push;

pub use cart::{LENGTH, demo_cart};

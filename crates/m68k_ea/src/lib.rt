//! Where the operands of the 68000 are: effective addresses, and what (An)+ and −(An) do to their
//! register.
#![tactic(auto)]

mod addresses;
mod operands;
mod places;
mod steps;

pub use operands::place;
pub use places::Place;
pub use steps::{step, stepped};

//! What the instructions of the 68000 are made of: private memory, shared accesses and their answers,
//! operands, conditions, and the shapes that most instructions have.
#![tactic(auto)]

pub mod accesses;
pub mod conditions;
pub mod laws;
pub mod memory;
pub mod operands;
pub mod outcome;
pub mod shapes;
pub mod stop;
pub mod vector;
pub mod view;

pub use outcome::Outcome;
pub use stop::Stop;
pub use view::{Context, Progress};

//! The least machine, which always moves the chip of least key, and the core, in which every order
//! of enabled events leads to the same.
#![tactic(auto)]

mod ahead;
mod chip_set;
mod event;
pub mod laws;
mod look;
mod scheduler;
mod stay;

pub use ahead::run;
pub use chip_set::ChipSet;
pub use event::Event;
pub use look::{find_other, least_of, limit_of};
pub use scheduler::Core;
pub use stay::Stay;

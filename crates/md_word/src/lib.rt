//! The plain types that the crates of the emulator hand to one another: keys of events, requests
//! and answers on the bus, operands and registers.
#![tactic(auto)]

mod area;
mod bit;
pub mod clock;
mod event;
mod flags;
mod key;
mod main_bus;
mod mode;
mod pins;
pub mod region;
mod regs;
mod size;
mod spent;
mod sub_bus;
mod task;
mod task80;
mod unspell;

pub use area::{Area, is_shared};
pub use bit::Bit;
pub use event::{Entry, Next};
pub use flags::Flags;
pub use key::Key;
pub use main_bus::{Answer68, Request68, Transfer};
pub use mode::Mode;
pub use pins::{Pins68, Pins80};
pub use regs::{Regs, SUPERVISOR, TRACE};
pub use size::{Size, extend};
pub use spent::Spent;
pub use sub_bus::{Answer80, Parcel, Request80, SUB_RAM_SIZE};
pub use task::Task;
pub use task80::Task80;
pub use unspell::{NoMemory, Unspell};

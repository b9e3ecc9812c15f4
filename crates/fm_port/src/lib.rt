//! The port of the FM chip: it takes its writes with their keys, and has its timers.
#![tactic(auto)]

mod port;
mod saved_port;
mod saved_write;
mod spelling;
mod timer;
mod timers;
mod write;

pub use port::FmPort;
pub use spelling::{COUNT_OFFSET, PORT_SIZE};
pub use write::{FmList, FmWrite, RESET};

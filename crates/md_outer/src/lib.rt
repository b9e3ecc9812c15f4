//! The outside of the machine: stores of files, streams of text and gates for threads, each with
//! one over memory and one over the real system.
#![tactic(auto)]

mod begun;
mod buffer;
mod calls;
mod depot;
mod fault;
mod file_depot;
mod gate;
mod listed;
mod mem_depot;
mod mem_sink;
mod names;
mod out_sink;
mod sink;
mod transfer;

pub use depot::{Begin, Depot, Fetch};
pub use file_depot::FileDepot;
pub use gate::{FreeGate, Gate};
pub use mem_depot::MemDepot;
pub use mem_sink::MemSink;
pub use out_sink::OutSink;
pub use sink::{Failed, Sink};
/// Memory that was asked for is not there: the one error when memory is out.
pub use std::alloc::AllocError as NoMemory;

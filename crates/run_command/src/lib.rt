//! The commands `run` and `demo`, from where a run begins: its segments, its outputs and digests, and the state that it
//! saves.
#![tactic(auto)]

mod course;
mod demo;
mod digests;
mod hashers;
mod inputs;
pub mod laws;
mod output;
mod outputs;
mod run_on;
mod run_outcome;
mod saving;
mod segment;
mod starting;
mod state_buffers;
mod summary;

pub use course::Course;
pub use demo::{demo_machine, sum_up};
pub use digests::Digests;
pub use inputs::Inputs;
pub use output::begin_all;
pub use outputs::Outputs;
pub use run_on::{pairs_between, write_all};
pub use run_outcome::RunOutcome;
pub use saving::make_buffers;
pub use segment::begin;
pub use starting::{power_on, shared};
pub use state_buffers::StateBuffers;
pub use summary::Summary;

//! What rows ask of a core of chips, and five small chips for them.
#![tactic(auto)]

mod events;
pub mod five;
mod five_runs;
mod fixture;
mod records;

pub use five_runs::{chip_of, line_of_five, run_by_least_key, run_by_workers};
pub use fixture::CoreFixture;
pub use records::record_text;

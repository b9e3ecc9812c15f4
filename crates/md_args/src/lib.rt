//! What the words of the command line ask for.
#![tactic(auto)]

mod asm_reading;
mod asm_words;
mod building;
mod command_words;
mod convert_reading;
mod convert_words;
mod debug_reading;
mod debug_words;
mod demo_reading;
mod demo_words;
mod files;
pub mod laws;
mod names;
mod numbers;
mod parameter;
mod parse;
mod reading;
mod rollback_reading;
mod rollback_words;
mod run_files;
mod run_values;
mod run_words;
mod verb;

pub use asm_words::AsmWords;
pub use command_words::CommandWords;
pub use convert_words::{ConvertWords, Product};
pub use debug_words::DebugWords;
pub use demo_words::DemoWords;
pub use files::{Input, Output};
pub use reading::read_words;
pub use rollback_words::RollbackWords;
pub use run_words::RunWords;

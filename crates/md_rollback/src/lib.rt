//! A session of two players whose inputs come late: it continues with expected inputs, and goes back where they
//! were wrong.
#![tactic(auto)]

mod fault;
mod frames;
mod input_fault;
pub mod input_laws;
mod inputs;
mod kept_images;
pub mod laws;
mod line;
mod line_fault;
mod number;
mod opening;
pub mod outcome_laws;
mod reading;
mod recording;
mod replaying;
mod rolled;
mod run_images;
mod running;
mod script;
mod sessions;
mod words;

pub use fault::AdvanceFault;
pub use input_fault::InputFault;
pub use inputs::Inputs;
pub use kept_images::KeptImages;
pub use line::{Line, Player};
pub use line_fault::LineFault;
pub use opening::session;
pub use reading::read_line;
pub use rolled::{Completion, Rolled};
pub use running::run_script;
pub use script::play;
pub use sessions::Session;
pub use words::MOST_FRAMES;

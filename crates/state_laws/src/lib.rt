//! Laws of saved states, and the images of machines that are saved states: those that the debugger keeps, and those
//! that rollback keeps, which are read back with another recording.
#![tactic(auto)]

mod fault;
pub mod image_laws;
mod owners;
mod replays;
pub mod settled;
mod state_images;
mod state_replays;
pub mod verdicts;

pub use fault::ReplayFault;
pub use owners::same_cart;
pub use replays::Replays;
pub use state_images::StateImages;
pub use state_replays::StateReplays;

//! The debugger: a session at a machine, which the lines of a script move forward and back. Each line is obeyed
//! exactly as its command is defined, or refused, and a refused line leaves the session as it was.
#![tactic(auto)]

mod debuggee;
mod fault;
mod kept_states;
mod laws;
mod playing;
mod script;
mod session;
pub mod session_laws;

pub use fault::DebugFault;
pub use kept_states::KeptStates;
pub use playing::{open, play_script};
pub use script::play;
pub use session::Session;

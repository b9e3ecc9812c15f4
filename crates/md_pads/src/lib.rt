//! Control pads: recordings of what was pressed, and the port to which a pad is connected.
#![tactic(auto)]

mod buttons;
mod fault;
pub mod laws;
mod port;
mod reading;
mod recording;
mod version;
mod writing;

pub use buttons::Buttons;
pub use fault::RecFault;
pub use port::PadPort;
pub use recording::{MOST_FRAMES, Recording};
pub use version::Version;

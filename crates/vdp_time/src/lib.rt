//! The VDP's time: the line and the frame of a cycle, the counters, blanking, and the event with
//! which a line begins.
#![tactic(auto)]

mod clock;
mod event;

pub use clock::{blank, frame_of, hv, line_of};
pub use event::start_line;

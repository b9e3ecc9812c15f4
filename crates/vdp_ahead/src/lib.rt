//! Scanlines that are rendered ahead of their events: a buffer of them with the view that they are drawn
//! from, and the double buffer by which two such buffers reach the worker that renders them, and return.
//!
//! A line that was rendered ahead is the line where the VDP is still as the buffer's view shows it; else it is
//! of no use, and nothing is lost.
#![tactic(auto)]

mod double_buffer;
mod line;
mod line_buffer;
mod place;

pub use double_buffer::DoubleBuffer;
pub use line_buffer::LineBuffer;
pub use place::Place;

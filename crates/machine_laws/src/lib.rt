//! Laws on the machines that a run reaches, and on runs with other recordings of the pads.
#![tactic(auto)]

pub mod board;
pub mod heard;
pub mod processors;
pub mod recordings;
pub mod saved;
pub mod settling;
pub mod timers;
pub mod video;
pub mod writes;

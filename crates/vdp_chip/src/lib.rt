//! The renderer of the video display processor (VDP): the picture, drawn line by line from a view
//! of the registers and memories.
#![tactic(auto)]

mod chip;
mod kept;
pub mod laws;
mod picture;
mod saved;
mod spelling;

pub use chip::ChipVdp;
pub use picture::{clear_dots, fill_scanline};
pub use saved::RENDERER_STATE_SIZE;

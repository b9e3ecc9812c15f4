//! The registers, memories and ports of the video display processor (VDP).
#![tactic(auto)]

mod code;
mod control;
mod data;
mod dma;
mod known;
mod memory;
pub mod register;
mod saved;
mod saved_rules;
mod spelling;
mod state;

pub use dma::{COPY, COPY_STEP, FILL, FILL_STEP, NO_DMA, Rest};
pub use memory::other_byte;
pub use saved::VDP_SIZE;
pub use state::{VRAM_SIZE, VdpState};

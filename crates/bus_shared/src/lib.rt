//! What the chips share, with each shared access and the pins that it leaves. It has the pads and their
//! recording, the version register, the VDP, the ports of the PSG and of the FM chip, the Z80's bus request
//! and reset, and its RAM while the bus is granted.
#![tactic(auto)]

mod accesses;
mod areas;
mod entries;
mod fm;
pub mod laws;
mod pads;
mod pins;
mod port;
mod prerendered;
mod register;
mod request;
mod saved_lines;
mod saved_ports;
mod shared;
mod spelling;
mod video;
mod video_ports;
mod z80_bus;
mod z80_space;

pub use accesses::{carry_out, start_line};
pub use pins::{pins68, pins80};
pub use port::VideoPort;
pub use register::Register;
pub use request::{Answer, Request};
pub use saved_lines::LINES_SIZE;
pub use shared::Shared;
pub use spelling::{FULL_SIZE, STORE_SIZE};

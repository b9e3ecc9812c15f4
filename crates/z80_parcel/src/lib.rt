//! The Z80's RAM and its bank register, which move between the Z80 and the bus as one parcel.
#![tactic(auto)]

pub mod laws;
mod parcel;
mod spelling;

pub use parcel::{RAM_END, RAM_SIZE, first, is_bank, known, read, shift, store_byte, store_bytes};
pub use spelling::{BANKS, parcel_of, put_store};

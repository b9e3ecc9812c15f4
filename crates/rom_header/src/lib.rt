//! What a cartridge has to be, and its image.
#![tactic(auto)]

mod cart;
mod header;

pub use cart::{Cart, CartFault, GREATEST, LEAST};

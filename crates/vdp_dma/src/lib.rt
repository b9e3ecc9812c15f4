//! The bytes of a fill or copy in the VDP, and the words of a transfer to it.
#![tactic(auto)]

mod bytes;

pub use bytes::{busy, is_read_again, settle, spell, transfer_word};

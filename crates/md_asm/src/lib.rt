//! An assembler of sources for the 68000 and the Z80: an image and where its instructions are, or the first
//! line that is at fault.
#![tactic(auto)]

mod assembled;
mod assembling;
mod cells;
mod codes;
mod contents;
mod data;
mod entry;
mod fault;
mod fitting;
mod kind;
pub mod laws;
mod measuring;
mod names;
mod numbers;
mod pass;
mod patching;
mod placed;
mod processor;
mod reading;
mod settled;

pub use assembled::Assembled;
pub use assembling::assemble;
pub use contents::{is_unfit, settle, size};
pub use fault::AsmFault;
pub use names::Names;
pub use numbers::{has_name, resolve};
pub use placed::Placed;
pub use settled::Settled;

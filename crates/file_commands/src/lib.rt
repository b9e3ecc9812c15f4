//! The commands that turn one file into another: VGM files and sound, and sources and cartridge images.
#![tactic(auto)]

mod assembling;
pub mod assembly_laws;
mod assembly_writing;
mod completion;
mod conversion;
pub mod conversion_laws;
mod conversion_writing;
mod converted;
mod listing;
mod making;
mod reading;

pub use assembling::assemble_file;
pub use completion::Completion;
pub use conversion::convert;
pub use converted::Converted;

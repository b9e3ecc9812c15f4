//! Laws of the assembler: each code says its line, texts are assembled, and what is disassembled comes again.
#![tactic(auto)]

pub mod assemblies;
pub mod laws;
pub mod round_trip;

//! Laws on what the 68000 does at a sample.
#![tactic(auto)]

pub mod laws;

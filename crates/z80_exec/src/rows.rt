//! The instructions, one file a group of the manual.

pub mod arithmetic;
pub mod bits;
pub mod blocks;
pub mod calls;
pub mod control;
pub mod exchanges;
pub mod jumps;
pub mod loads;
pub mod pairs;
pub mod ports;
pub mod rotates;

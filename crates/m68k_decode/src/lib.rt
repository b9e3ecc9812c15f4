//! Instructions of the MC68000: what their words decode to.
#![tactic(auto)]

mod addressing;
mod arithmetic;
mod branches;
mod condition;
mod decoded;
mod decoder;
mod displacement;
mod fields;
mod group_0;
mod group_4;
mod group_48;
mod group_4e;
mod group_8;
mod group_b;
mod group_c;
mod group_e;
mod illegal;
mod moves;
mod op;
mod operand;

pub use condition::Condition;
pub use decoded::Decoded;
pub use decoder::{decode, decode_into};
pub use displacement::Displacement;
pub use op::Op;

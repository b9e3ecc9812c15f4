//! Instructions of the Z80: what their bytes decode to, with every prefix.
#![tactic(auto)]

mod bits;
mod block;
mod condition;
mod control;
mod decoded80;
mod decoder;
mod extended;
mod fields;
mod index;
mod indexed;
mod interrupt_mode;
mod loads;
mod low_group;
mod op80;
mod pair;
mod place8;
mod plain;
mod special;

pub use block::Block;
pub use condition::Condition;
pub use decoded80::Decoded80;
pub use decoder::decode;
pub use index::Index;
pub use interrupt_mode::InterruptMode;
pub use md_word::{Bit, Task80};
pub use op80::Op80;
pub use pair::Pair;
pub use place8::Place8;
pub use special::Special;

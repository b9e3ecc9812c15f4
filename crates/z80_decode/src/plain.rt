ghost use Rattle.std.specs.Prelude.{◌≡◌};
ghost use Rattle.z80_decode.specs.Nested as nested;

use crate::control::control;
use crate::fields::{arithmetic, displaced, place};
use crate::loads::loads;
use crate::low_group::low_group;
use crate::{Decoded80, Index, Op80};

/// An opcode that is no prefix, with the two bytes that follow it.
#[tactic(auto, unfolding(crate::specs::Nested::by_opcode))]
pub fn by_opcode(index: Index, opcode: u8, first: u8, second: u8) -> Decoded80
    ensures { result ≡ nested.by_opcode index opcode first second }
{
    match opcode >> 6 {
        0 => low_group(index, opcode, first, second),
        1 => loads(index, opcode, first),
        2 => Decoded80::coded(
            index,
            displaced(index, opcode & 7),
            Op80::Arithmetic(arithmetic(opcode >> 3 & 7), place(index, opcode & 7, first)),
        ),
        _ => control(index, opcode, first, second),
    }
}

ghost use Rattle.std.specs.Prelude.{◌≡◌};
ghost use Rattle.z80_decode.specs.Nested as nested;

use crate::fields::{displacements, memory, place};
use crate::{Decoded80, Index, Op80};

/// LD r,r' and HALT: the opcodes 40h to 7Fh. H and L beside a displaced place stay themselves.
#[tactic(auto, unfolding(crate::specs::Nested::loads))]
pub fn loads(index: Index, opcode: u8, first: u8) -> Decoded80
    ensures { result ≡ nested.loads index opcode first }
{
    match (opcode >> 3 & 7, opcode & 7) {
        (6, 6) => Decoded80::plain(0, Op80::Halt),
        (6, source) => Decoded80::coded(
            index,
            displacements(index),
            Op80::Load(memory(index, first), place(Index::Hl, source, 0)),
        ),
        (target, 6) => Decoded80::coded(
            index,
            displacements(index),
            Op80::Load(place(Index::Hl, target, 0), memory(index, first)),
        ),
        (target, source) => Decoded80::coded(
            index,
            0,
            Op80::Load(place(index, target, 0), place(index, source, 0)),
        ),
    }
}

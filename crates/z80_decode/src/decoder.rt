ghost use Rattle.std.specs.Prelude.{◌≡◌};
ghost use Rattle.z80_decode.specs.Instructions.{AtMostOneRow, instruction_of};
ghost use Rattle.z80_decode.specs.Nested.{nested};
ghost use Rattle.z80_decode.specs.Ops.{IsInstruction};

use crate::bits::bits;
use crate::extended::extended;
use crate::fields::place;
use crate::indexed::indexed;
use crate::plain::by_opcode;
use crate::{Decoded80, Index};

/// The instruction of these bytes, by the prefix.
#[inline(always)]
#[tactic(auto, unfolding(crate::specs::Nested::nested))]
fn by_prefix(opcode: u8, first: u8, second: u8, third: u8) -> Decoded80
    ensures { result ≡ nested opcode first second third }
{
    match opcode {
        0xcb => Decoded80::of_bytes(2, bits(first, place(Index::Hl, first & 7, 0))),
        0xdd => indexed(Index::Ix, first, second, third),
        0xed => extended(first, second, third),
        0xfd => indexed(Index::Iy, first, second, third),
        _ => by_opcode(Index::Hl, opcode, first, second),
    }
}

/// The instruction that these bytes begin with, of 1 to 4 bytes.
///
/// Each four bytes decode. A prefix DD or FD whose next byte does not name HL is an instruction of
/// its own, and an opcode after ED that is none has 2 bytes. Source: Zilog UM0080, "Z80 Instruction
/// Description".
#[inline(always)]
#[tactic(auto, using(crate::proofs::Table::decoded_is_nested, crate::proofs::Table::one_row))]
pub fn decode(bytes: &[u8; 4]) -> Decoded80
    ensures value { result ≡ instruction_of bytes.now }
    ensures at_most_one_row { AtMostOneRow bytes.now }
    ensures instruction { IsInstruction result }
{
    let [opcode, first, second, third] = *bytes;
    by_prefix(opcode, first, second, third)
}

ghost use Rattle.std.specs.Prelude.{◌≡◌};
ghost use Rattle.z80_decode.specs.Nested as nested;

use crate::bits::bits;
use crate::fields::memory;
use crate::plain::by_opcode;
use crate::{Decoded80, Index, Op80};

/// Whether an opcode of 00h to 3Fh names HL, H, L or (HL).
#[tactic(auto, unfolding(crate::specs::Nested::low_names_hl))]
fn low_names_hl(opcode: u8) -> bool
    ensures { result ≡ nested.low_names_hl opcode }
{
    let code = opcode >> 3 & 7;
    match opcode & 7 {
        1 => opcode >> 3 & 1 == 1 || code == 4,
        2 | 3 => matches!(code, 4 | 5),
        4..=6 => matches!(code, 4..=6),
        _ => false,
    }
}

/// Whether an opcode names HL, H, L or (HL), so that a prefix changes it. EX DE,HL and EXX count as
/// naming none.
#[tactic(auto, unfolding(crate::specs::Nested::names_hl))]
fn names_hl(opcode: u8) -> bool
    ensures { result ≡ nested.names_hl opcode }
{
    match opcode >> 6 {
        0 => low_names_hl(opcode),
        1 => opcode != 0x76 && (matches!(opcode >> 3 & 7, 4..=6) || matches!(opcode & 7, 4..=6)),
        2 => matches!(opcode & 7, 4..=6),
        _ => matches!(opcode, 0xe1 | 0xe3 | 0xe5 | 0xe9 | 0xf9),
    }
}

/// The instruction after a prefix DD or FD, or the prefix alone.
#[tactic(auto, unfolding(crate::specs::Nested::indexed))]
pub fn indexed(index: Index, opcode: u8, first: u8, second: u8) -> Decoded80
    ensures { result ≡ nested.indexed index opcode first second }
{
    match opcode {
        0xcb => Decoded80::of_bytes(4, bits(second, memory(index, first))),
        _ if names_hl(opcode) => by_opcode(index, opcode, first, second),
        _ => Decoded80::of_bytes(1, Op80::LonePrefix(index)),
    }
}

ghost use Rattle.std.specs.Prelude.{◌≡◌};
ghost use Rattle.z80_decode.specs.Nested as nested;

use crate::fields::bit;
use crate::{Op80, Place8, Task80};

/// A rotate or a shift.
#[tactic(auto, unfolding(crate::specs::Nested::shift))]
fn shift(code: u8) -> Task80
    ensures { result ≡ nested.shift code }
{
    match code {
        0 => Task80::Rlc,
        1 => Task80::Rrc,
        2 => Task80::Rl,
        3 => Task80::Rr,
        4 => Task80::Sla,
        5 => Task80::Sra,
        6 => Task80::Sll,
        _ => Task80::Srl,
    }
}

/// An opcode after the prefix CB, on its place.
#[tactic(auto, unfolding(crate::specs::Nested::bits))]
pub fn bits(opcode: u8, place: Place8) -> Op80
    ensures { result ≡ nested.bits opcode place }
{
    let code = opcode >> 3 & 7;
    match opcode >> 6 {
        0 => Op80::Change(shift(code), place),
        1 => Op80::TestBit(bit(code), place),
        2 => Op80::Change(Task80::Res(bit(code)), place),
        _ => Op80::Change(Task80::Set(bit(code)), place),
    }
}

ghost use Rattle.std.specs.Prelude.{◌≡◌, ◌≤◌};
ghost use Rattle.m68k_time.specs.Exceptions as exceptions;

use crate::address::address_time;
use m68k_decode::Op;
use md_word::Size;

/// The whole time of an exception, by its vector number.
#[inline(never)]
pub(crate) fn exception_time(cause: u8, op: &Op) -> u32
    ensures { result ≡ exceptions.exception_time cause op.now }
{
    match cause {
        3 => 50,
        5 => 38 + operand_time(op),
        6 => 40 + operand_time(op),
        24..=31 => 44,
        _ => 34,
    }
}

/// The time of the operand that CHK and a division had read.
fn operand_time(op: &Op) -> u32
    ensures value { result ≡ exceptions.operand_time op.now }
    ensures most { result ≤ 16 }
{
    match *op {
        Op::Chk(_, mode) | Op::Divu(_, mode) | Op::Divs(_, mode) => address_time(Size::Word, mode),
        _ => 0,
    }
}

ghost use Rattle.std.specs.Prelude.{◌≡◌, ◌<◌};
ghost use Rattle.z80_alu.specs.Shifts as shifts;

use crate::arithmetic::shown;
use crate::logic::parity;
use crate::out80::reported;
use crate::{Flags80, Out80};

/// A byte shifted to the left, with the bit that comes in.
#[inline(always)]
pub fn left(value: u8, incoming: bool) -> u8
    ensures { result ≡ shifts.left value incoming }
{
    (value & 0x7f) * 2 + u8::from(incoming)
}

/// A byte shifted to the right, with the bit that comes in.
#[inline(always)]
pub fn right(value: u8, incoming: bool) -> u8
    ensures { result ≡ shifts.right value incoming }
{
    value / 2 + 0x80 * u8::from(incoming)
}

/// A rotate or shift of a place, with the bit that goes out.
#[tactic(auto, unfolding(crate::specs::Shifts::shifted))]
pub fn shifted(value: u8, out: bool) -> Out80
    ensures { result ≡ shifts.shifted value out }
{
    shown(value, false, parity(value), false, out)
}

/// A rotate of the accumulator, with the bit that goes out.
#[tactic(auto, unfolding(crate::specs::Shifts::turned))]
pub fn turned(value: u8, out: bool, flags: Flags80) -> Out80
    ensures { result ≡ shifts.turned value out flags }
{
    reported(
        value,
        Flags80 {
            h: false,
            n: false,
            c: out,
            ..flags
        },
    )
}

/// The accumulator with this low digit.
#[inline(always)]
pub fn with_low_digit(a: u8, digit: u8) -> u8
    requires { digit < 16 }
    ensures { result ≡ shifts.with_low_digit a digit }
{
    a / 16 * 16 + digit
}

/// RLD and RRD, of the accumulator's new value.
#[tactic(auto, unfolding(crate::specs::Shifts::digit_rotated))]
pub fn digit_rotated(value: u8, flags: Flags80) -> Out80
    ensures { result ≡ shifts.digit_rotated value flags }
{
    shown(value, false, parity(value), false, flags.c)
}

/// What RLD leaves in memory, of the accumulator and the byte that was there.
#[inline]
#[tactic(auto, unfolding(crate::specs::Shifts::rld_memory))]
pub fn rld_memory(a: u8, b: u8) -> u8
    ensures { result ≡ shifts.rld_memory a b }
{
    b % 16 * 16 + a % 16
}

/// What RRD leaves in memory, of the accumulator and the byte that was there.
#[inline]
#[tactic(auto, unfolding(crate::specs::Shifts::rrd_memory))]
pub fn rrd_memory(a: u8, b: u8) -> u8
    ensures { result ≡ shifts.rrd_memory a b }
{
    a % 16 * 16 + b / 16
}

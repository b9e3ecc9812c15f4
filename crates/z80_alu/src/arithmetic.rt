ghost use Rattle.std.specs.Prelude.{◌≡◌, ◌-ℤ◌, pos};
ghost use Rattle.md_word.specs.Coding.{flag_number};
ghost use Rattle.md_word.specs.Width.{word_of};
ghost use Rattle.z80_alu.specs.Arithmetic as arithmetic;
ghost use Rattle.z80_alu.specs.Flags as flags;

use crate::out80::reported;
use crate::{Flags80, Out80};
use md_word::Size;

/// A value with S and Z by it.
#[inline(always)]
#[tactic(auto, using(std::proofs::lemmas::Bool::Decides::nat_tests), unfolding(crate::specs::Flags::shown))]
pub fn shown(value: u8, h: bool, pv: bool, n: bool, c: bool) -> Out80
    ensures { result ≡ flags.shown value h pv n c }
{
    reported(
        value,
        Flags80 {
            s: value >= 0x80,
            z: value == 0,
            h,
            pv,
            n,
            c,
        },
    )
}

/// ADD and ADC: a, b and a carry added.
#[tactic(auto, using(std::proofs::lemmas::Bool::Decides::nat_tests), unfolding(crate::specs::Arithmetic::added))]
pub fn added(a: u8, b: u8, carry: bool) -> Out80
    ensures { result ≡ arithmetic.added a b carry }
{
    let sum = u16::from(a) + u16::from(b) + u16::from(carry);
    let half = (a & 15) + (b & 15) + u8::from(carry) > 15;
    let overflow = Size::Byte.sum_overflows(u32::from(a), u32::from(b), carry);
    shown((sum & 0xff) as u8, half, overflow, false, sum > 0xff)
}

/// a less b and a borrow, within a byte.
#[inline(always)]
#[tactic(auto, using(std::proofs::lemmas::Int::ints, std::proofs::lemmas::Bool::Decides::nat_tests))]
fn difference(a: u8, b: u8, borrow: bool) -> u8
    ensures { result ≡ word_of 0x100 (pos a -ℤ pos b -ℤ pos (flag_number borrow)) }
{
    ((0x100 + u16::from(a) - u16::from(b) - u16::from(borrow)) & 0xff) as u8
}

/// SUB and SBC: a less b and a borrow.
#[tactic(auto, using(std::proofs::lemmas::Bool::Decides::nat_tests), unfolding(crate::specs::Arithmetic::subtracted))]
pub fn subtracted(a: u8, b: u8, borrow: bool) -> Out80
    ensures { result ≡ arithmetic.subtracted a b borrow }
{
    let half = a & 15 < (b & 15) + u8::from(borrow);
    let overflow = Size::Byte.difference_overflows(u32::from(a), u32::from(b), borrow);
    let below = u16::from(a) < u16::from(b) + u16::from(borrow);
    shown(difference(a, b, borrow), half, overflow, true, below)
}

/// CP: the flags of a less b.
#[tactic(auto, unfolding(crate::specs::Arithmetic::compared))]
pub fn compared(a: u8, b: u8) -> Out80
    ensures { result ≡ arithmetic.compared a b }
{
    Out80 {
        value: a,
        f: subtracted(a, b, false).f,
    }
}

/// INC
#[tactic(auto, using(std::proofs::lemmas::Bool::Decides::nat_tests), unfolding(crate::specs::Arithmetic::incremented))]
pub fn incremented(b: u8, flags: Flags80) -> Out80
    ensures { result ≡ arithmetic.incremented b flags }
{
    shown(b.wrapping_add(1), b & 15 == 15, b == 0x7f, false, flags.c)
}

/// DEC
#[tactic(auto, using(std::proofs::lemmas::Bool::Decides::nat_tests), unfolding(crate::specs::Arithmetic::decremented))]
pub fn decremented(b: u8, flags: Flags80) -> Out80
    ensures { result ≡ arithmetic.decremented b flags }
{
    shown(b.wrapping_add(0xff), b & 15 == 0, b == 0x80, true, flags.c)
}

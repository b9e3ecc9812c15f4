ghost use Rattle.std.specs.Prelude.{◌≡◌, ◌-ℤ◌, pos};
ghost use Rattle.md_word.specs.Coding.{flag_number};
ghost use Rattle.md_word.specs.Width.{word_of};
ghost use Rattle.z80_alu.specs.Flags.{flags_of};
ghost use Rattle.z80_alu.specs.Pairs as pairs;

use crate::{Flags80, Out16};
use md_word::Size;

/// ADD HL,ss
#[inline]
#[tactic(auto, using(std::proofs::lemmas::Bool::Decides::nat_tests), unfolding(crate::specs::Pairs::pair_added))]
pub fn add_pair(left: u16, right: u16, f: u8) -> Out16
    ensures { result ≡ pairs.pair_added left right f }
{
    let flags = Flags80 {
        h: (left & 0xfff) + (right & 0xfff) > 0xfff,
        n: false,
        c: u32::from(left) + u32::from(right) > 0xffff,
        ..Flags80::of(f)
    };
    Out16 {
        value: left.wrapping_add(right),
        f: flags.byte(),
    }
}

/// A value with S and Z by it.
#[inline(always)]
#[tactic(auto, using(std::proofs::lemmas::Bool::Decides::nat_tests), unfolding(crate::specs::Pairs::pair_shown))]
fn pair_shown(value: u16, h: bool, pv: bool, n: bool, c: bool) -> Out16
    ensures { result ≡ pairs.pair_shown value h pv n c }
{
    let flags = Flags80 {
        s: value >= 0x8000,
        z: value == 0,
        h,
        pv,
        n,
        c,
    };
    Out16 {
        value,
        f: flags.byte(),
    }
}

/// ADC HL,ss
#[inline]
#[tactic(auto, using(std::proofs::lemmas::Bool::Decides::nat_tests), unfolding(crate::specs::Pairs::pair_added_with_carry))]
pub fn add_pair_with_carry(left: u16, right: u16, f: u8) -> Out16
    ensures { result ≡ pairs.pair_added_with_carry left right (flags_of f).c }
{
    let carry = Flags80::of(f).c;
    let sum = u32::from(left) + u32::from(right) + u32::from(carry);
    let half = (left & 0xfff) + (right & 0xfff) + u16::from(carry) > 0xfff;
    let overflow = Size::Word.sum_overflows(u32::from(left), u32::from(right), carry);
    pair_shown((sum & 0xffff) as u16, half, overflow, false, sum > 0xffff)
}

/// Left less right and a borrow, within a word.
#[inline(always)]
#[tactic(auto, using(std::proofs::lemmas::Int::ints, std::proofs::lemmas::Bool::Decides::nat_tests))]
fn difference(left: u16, right: u16, borrow: bool) -> u16
    ensures { result ≡ word_of 0x1_0000 (pos left -ℤ pos right -ℤ pos (flag_number borrow)) }
{
    ((0x1_0000 + u32::from(left) - u32::from(right) - u32::from(borrow)) & 0xffff) as u16
}

/// SBC HL,ss
#[inline]
#[tactic(auto, using(std::proofs::lemmas::Bool::Decides::nat_tests), unfolding(crate::specs::Pairs::pair_subtracted))]
pub fn subtract_pair_with_carry(left: u16, right: u16, f: u8) -> Out16
    ensures { result ≡ pairs.pair_subtracted left right (flags_of f).c }
{
    let borrow = Flags80::of(f).c;
    let half = left & 0xfff < (right & 0xfff) + u16::from(borrow);
    let overflow = Size::Word.difference_overflows(u32::from(left), u32::from(right), borrow);
    let below = u32::from(left) < u32::from(right) + u32::from(borrow);
    pair_shown(difference(left, right, borrow), half, overflow, true, below)
}

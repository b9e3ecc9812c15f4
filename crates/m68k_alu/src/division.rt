ghost use Rattle.std.specs.Prelude.{◌≡◌, ◌≢◌, ◌↔◌, ◌≤ℤ◌, pos, negsuc, int_div, int_rem};
ghost use Rattle.m68k_alu.specs.Division as division;

use crate::Quotient;
use md_word::Size;

/// The dividend as a number: 32 bits, signed or not.
#[tactic(auto, using(std::proofs::lemmas::Int::ints))]
fn dividend_of(signed: bool, target: u32) -> i64
    ensures value { result ≡ division.dividend_of signed target }
    ensures least { negsuc 0x7fff_ffff ≤ℤ result }
    ensures greatest { result ≤ℤ pos 0xffff_ffff }
{
    if signed {
        Size::Long.signed(target)
    } else {
        i64::from(target)
    }
}

/// The divisor as a number: 16 bits, signed or not.
#[tactic(auto, using(std::proofs::lemmas::Int::ints))]
fn divisor_of(signed: bool, source: u16) -> i64
    ensures value { result ≡ division.divisor_of signed source }
    ensures zero { result ≡ pos 0 → source ≡ 0 }
{
    if signed {
        Size::Word.signed(u32::from(source))
    } else {
        i64::from(source)
    }
}

/// The quotient, rounded towards 0.
#[tactic(auto, using(std::proofs::lemmas::Int::ints))]
fn truncated_quotient(dividend: i64, divisor: i64) -> i64
    requires zero { divisor ≢ pos 0 }
    requires least { negsuc 0x7fff_ffff ≤ℤ dividend }
    requires greatest { dividend ≤ℤ pos 0xffff_ffff }
    ensures { result ≡ int_div dividend divisor }
{
    dividend / divisor
}

/// The remainder, with the dividend's sign.
#[tactic(auto, using(std::proofs::lemmas::Int::ints))]
fn remainder(dividend: i64, divisor: i64) -> i64
    requires zero { divisor ≢ pos 0 }
    requires least { negsuc 0x7fff_ffff ≤ℤ dividend }
    requires greatest { dividend ≤ℤ pos 0xffff_ffff }
    ensures { result ≡ int_rem dividend divisor }
{
    dividend % divisor
}

/// Whether a quotient has its place in a word.
#[tactic(auto, using(std::proofs::lemmas::Int::ints, std::proofs::lemmas::Bool::Decides::nat_tests), unfolding(md_word::specs::Width::fits))]
fn fits_word(signed: bool, quotient: i64) -> bool
    ensures { result ≡ division.fits_word signed quotient }
{
    if signed {
        quotient >= -0x8000 && quotient < 0x8000
    } else {
        quotient >= 0 && quotient < 0x1_0000
    }
}

/// The remainder and the quotient as words of a long.
#[tactic(auto, using(std::proofs::lemmas::Int::ints, std::proofs::lemmas::Bool::Decides::nat_tests), unfolding(crate::specs::Division::packed))]
fn packed(quotient: i64, remainder: i64) -> u32
    ensures { result ≡ division.packed quotient remainder }
{
    let upper = remainder.rem_euclid(0x1_0000) as u32;
    let lower = quotient.rem_euclid(0x1_0000) as u32;
    upper * 0x1_0000 + lower
}

/// The quotient rounded towards 0, and the remainder that it leaves.
#[tactic(auto, unfolding(crate::specs::Division::divided))]
fn divided(signed: bool, source: u16, target: u32) -> Quotient
    ensures divided { result ≡ division.divided signed source target }
    ensures zero { (result ≡ Quotient.Zero) ↔ (source ≡ 0) }
{
    if source == 0 {
        return Quotient::Zero;
    }
    let dividend = dividend_of(signed, target);
    let divisor = divisor_of(signed, source);
    let quotient = truncated_quotient(dividend, divisor);
    if fits_word(signed, quotient) {
        Quotient::Value(packed(quotient, remainder(dividend, divisor)))
    } else {
        Quotient::Overflow
    }
}

/// A long divided by a word: in two's complement, as DIVS, or not, as DIVU.
///
/// The quotient times the divisor and the remainder make the dividend; the remainder is smaller
/// than the divisor and has the dividend's sign. An overflow is answered exactly where that
/// quotient has no place in a word.
/// Source: M68000 Programmer's Reference Manual, section 4, DIVS and DIVU.
#[tactic(auto, using(crate::proofs::Quotients::quotient_divides))]
pub fn divide(signed: bool, source: u16, target: u32) -> Quotient
    ensures divided { result ≡ division.divided signed source target }
    ensures relation { division.Divides signed source target result }
    ensures zero { (result ≡ Quotient.Zero) ↔ (source ≡ 0) }
{
    divided(signed, source, target)
}

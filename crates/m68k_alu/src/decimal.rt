ghost use Rattle.std.specs.Prelude.{◌≡◌, ◌<◌, ◌≤ℤ◌, pos, negsuc};
ghost use Rattle.m68k_alu.specs.Decimal as decimal;

use crate::Out;
use md_word::Flags;

/// A value with X and C by the carry, and Z only cleared.
#[tactic(auto, unfolding(crate::specs::Decimal::decimal))]
fn decimal(value: u32, carry: bool, flags: Flags) -> Out
    ensures decimal { result ≡ decimal.decimal value carry flags }
    ensures value { result.value ≡ value }
{
    Out {
        value,
        flags: Flags {
            x: carry,
            z: flags.z && value == 0,
            c: carry,
            ..flags
        },
    }
}

/// The low digits' sum, corrected.
#[tactic(auto, using(std::proofs::lemmas::Bool::Decides::nat_tests), unfolding(crate::specs::Decimal::low_sum))]
fn low_sum(source: u32, target: u32, carry: bool) -> u32
    ensures value { result ≡ decimal.low_sum source target carry }
    ensures below { result < 38 }
{
    let sum = target % 16 + source % 16 + u32::from(carry);
    if sum > 9 { sum + 6 } else { sum }
}

/// The sum before its upper digit is corrected.
#[tactic(auto, unfolding(crate::specs::Decimal::digit_sum))]
fn digit_sum(source: u32, target: u32, carry: bool) -> u32
    requires source { source < 0x100 }
    requires target { target < 0x100 }
    ensures value { result ≡ decimal.digit_sum source target carry }
    ensures below { result < 0x400 }
{
    target - target % 16 + (source - source % 16) + low_sum(source, target, carry)
}

/// The decimal sum of the target, the source and X.
#[tactic(auto, using(std::proofs::lemmas::Bool::Decides::nat_tests), unfolding(crate::specs::Decimal::decimal_added))]
pub fn decimal_added(source: u32, target: u32, flags: Flags) -> Out
    requires source { source < 0x100 }
    requires target { target < 0x100 }
    ensures value { result ≡ decimal.decimal_added source target flags }
    ensures below { result.value < 0x100 }
{
    let sum = digit_sum(source, target, flags.x);
    let carry = sum > 0x9f;
    let corrected = if carry { sum + 0x60 } else { sum };
    decimal(corrected % 0x100, carry, flags)
}

/// The low digits' difference, corrected.
#[tactic(auto, unfolding(crate::specs::Decimal::low_difference))]
fn low_difference(source: u32, target: u32, borrow: bool) -> i32
    ensures value { result ≡ decimal.low_difference source target borrow }
    ensures least { negsuc 21 ≤ℤ result }
    ensures greatest { result ≤ℤ pos 15 }
{
    let difference = (target % 16) as i32 - (source % 16) as i32 - i32::from(borrow);
    if difference < 0 {
        difference - 6
    } else {
        difference
    }
}

/// The difference before its upper digit is corrected.
#[tactic(auto, using(std::proofs::lemmas::Int::ints, std::proofs::lemmas::Bool::Decides::nat_tests), unfolding(crate::specs::Decimal::digit_difference))]
fn digit_difference(source: u32, target: u32, borrow: bool) -> i32
    requires source { source < 0x100 }
    requires target { target < 0x100 }
    ensures value { result ≡ decimal.digit_difference source target borrow }
    ensures least { negsuc 276 ≤ℤ result }
    ensures greatest { result ≤ℤ pos 270 }
{
    let upper = (target - target % 16) as i32 - (source - source % 16) as i32;
    upper + low_difference(source, target, borrow)
}

/// The difference of the decimal digits, within a byte.
#[tactic(auto, using(std::proofs::lemmas::Int::ints, std::proofs::lemmas::Bool::Decides::nat_tests), unfolding(crate::specs::Decimal::decimal_difference))]
fn decimal_difference(source: u32, target: u32, borrow: bool) -> u32
    requires source { source < 0x100 }
    requires target { target < 0x100 }
    ensures value { result ≡ decimal.decimal_difference source target borrow }
    ensures below { result < 0x100 }
{
    let difference = digit_difference(source, target, borrow);
    let below = target < source + u32::from(borrow);
    let corrected = if below { difference - 0x60 } else { difference };
    corrected.rem_euclid(0x100) as u32
}

/// The decimal difference of the target, the source and X.
#[tactic(auto, using(std::proofs::lemmas::Bool::Decides::nat_tests), unfolding(crate::specs::Decimal::decimal_subtracted))]
pub fn decimal_subtracted(source: u32, target: u32, flags: Flags) -> Out
    requires source { source < 0x100 }
    requires target { target < 0x100 }
    ensures value { result ≡ decimal.decimal_subtracted source target flags }
    ensures below { result.value < 0x100 }
{
    let borrow = target < source + u32::from(flags.x);
    decimal(decimal_difference(source, target, flags.x), borrow, flags)
}

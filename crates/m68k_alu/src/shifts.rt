ghost use Rattle.std.specs.Prelude.{◌≡◌, ◌↔◌, ◌+◌, ◌^◌, ◌<◌, ◌≤◌, false, pos};
ghost use Rattle.md_word.specs.Width.{modulus_of, signed_of, width_of};
ghost use Rattle.m68k_alu.specs.Shifts as shifts;

use crate::Out;
use crate::results::shown;
use md_word::{Flags, Size};

/// A shifted value: X and C are the last bit out; where nothing moves, X stays and C is cleared.
#[tactic(auto, unfolding(crate::specs::Shifts::shifted))]
fn shifted(size: Size, count: u32, value: u32, v: bool, out: bool, flags: Flags) -> Out
    ensures shifted { result ≡ shifts.shifted size count value v out flags }
    ensures value { result.value ≡ value }
    ensures overflow { result.flags.v ≡ v }
{
    let x = if count == 0 { flags.x } else { out };
    shown(size, value, x, v, out)
}

/// Whether the number in two's complement leaves its range where it is doubled so many times.
#[tactic(auto, using(std::proofs::lemmas::Int::ints, std::proofs::lemmas::Bool::Decides::nat_tests), unfolding(crate::specs::Shifts::doubling_overflows, md_word::specs::Width::fits, md_word::specs::Width::signed_of))]
pub fn doubling_overflows(size: Size, count: u32, target: u32) -> bool
    requires count { count < 64 }
    requires target { target < modulus_of size }
    ensures value { result ≡ shifts.doubling_overflows size count target }
    ensures sign { (result ≡ false) ↔ shifts.SignStays size count target }
{
    let half = u128::from(size.half());
    if target < size.half() {
        u128::from(target) << count >= half
    } else {
        u128::from(size.modulus() - u64::from(target)) << count > half
    }
}

/// The last bit out at the top.
#[tactic(auto, using(std::proofs::lemmas::Bool::Decides::nat_tests), unfolding(crate::specs::Shifts::out_above))]
fn out_above(size: Size, count: u32, target: u32) -> bool
    requires { count < 64 }
    ensures { result ≡ shifts.out_above size count target }
{
    (u128::from(target) << count) / u128::from(size.modulus()) % 2 == 1
}

/// The number moved to the left: ASL and LSL.
#[tactic(auto, unfolding(crate::specs::Shifts::shifted_left))]
pub fn shifted_left(size: Size, count: u32, target: u32, v: bool, flags: Flags) -> Out
    requires { count < 64 }
    ensures value { result ≡ shifts.shifted_left size count target v flags }
    ensures below { result.value < modulus_of size }
    ensures overflow { result.flags.v ≡ v }
{
    let value = ((u128::from(target) << count) % u128::from(size.modulus())) as u32;
    shifted(size, count, value, v, out_above(size, count, target), flags)
}

/// The number moved to the right with 0 above it: LSR.
#[tactic(auto, using(std::proofs::lemmas::Int::ints, std::proofs::lemmas::Bool::Decides::nat_tests), unfolding(crate::specs::Shifts::shifted_right, crate::specs::Shifts::out_below))]
pub fn shifted_right(size: Size, count: u32, target: u32, flags: Flags) -> Out
    requires count { count < 64 }
    requires target { target < modulus_of size }
    ensures value { result ≡ shifts.shifted_right size count (pos target) flags }
    ensures below { result.value < modulus_of size }
{
    let out = (u64::from(target) * 2) >> count;
    let value = (u64::from(target) >> count) as u32;
    shifted(size, count, value, false, out % 2 == 1, flags)
}

/// The number moved to the right with copies of its sign above it: ASR.
#[tactic(auto, using(std::proofs::lemmas::Int::ints, std::proofs::lemmas::Bool::Decides::nat_tests), unfolding(crate::specs::Shifts::shifted_right, crate::specs::Shifts::out_below, md_word::specs::Width::signed_of))]
pub fn shifted_right_signed(size: Size, count: u32, target: u32, flags: Flags) -> Out
    requires count { count < 64 }
    requires target { target < modulus_of size }
    ensures value { result ≡ shifts.shifted_right size count (signed_of size target) flags }
    ensures below { result.value < modulus_of size }
{
    if target < size.half() {
        return shifted_right(size, count, target, flags);
    }
    // Of a negative number the complement moves.
    let complement = size.modulus() - 1 - u64::from(target);
    let out = (complement * 2 + 1) >> count;
    let value = (size.modulus() - 1 - (complement >> count)) as u32;
    shifted(size, count, value, false, out % 2 == 0, flags)
}

/// A number of so many bits, its upper ones put below the others.
#[tactic(auto, using(crate::proofs::Rotation::rotated_below, crate::proofs::Rotation::power_fits), unfolding(crate::specs::Shifts::rotated))]
fn rotated(width: u32, count: u32, number: u64) -> u64
    requires width { width ≤ 33 }
    requires count { count ≤ width }
    requires number { number < 2 ^ width }
    ensures value { result ≡ shifts.rotated width count number }
    ensures below { result < 2 ^ width }
{
    let upper = number >> (width - count);
    let lower = number % (1 << (width - count));
    (lower << count) + upper
}

/// The number rotated to the left, without X.
#[tactic(auto, unfolding(crate::specs::Shifts::rotated_left))]
pub fn rotated_left(size: Size, count: u32, target: u32, flags: Flags) -> Out
    requires count { count < 64 }
    requires target { target < modulus_of size }
    ensures value { result ≡ shifts.rotated_left size count target flags }
    ensures below { result.value < modulus_of size }
{
    let width = u32::from(size.width());
    let value = rotated(width, count % width, u64::from(target)) as u32;
    shown(size, value, flags.x, false, count != 0 && value % 2 == 1)
}

/// The number rotated to the right, without X.
#[tactic(auto, unfolding(crate::specs::Shifts::rotated_right))]
pub fn rotated_right(size: Size, count: u32, target: u32, flags: Flags) -> Out
    requires count { count < 64 }
    requires target { target < modulus_of size }
    ensures value { result ≡ shifts.rotated_right size count target flags }
    ensures below { result.value < modulus_of size }
{
    let width = u32::from(size.width());
    let value = rotated(width, width - count % width, u64::from(target)) as u32;
    shown(
        size,
        value,
        flags.x,
        false,
        count != 0 && value >= size.half(),
    )
}

/// The number with X above it rotated `by` places to the left.
#[tactic(auto, unfolding(crate::specs::Shifts::rotated_with_extend))]
pub fn rotated_with_extend(size: Size, by: u32, target: u32, flags: Flags) -> Out
    requires by { by ≤ width_of size + 1 }
    requires target { target < modulus_of size }
    ensures value { result ≡ shifts.rotated_with_extend size by target flags }
    ensures below { result.value < modulus_of size }
{
    let width = u32::from(size.width()) + 1;
    let number = u64::from(flags.x) * size.modulus() + u64::from(target);
    let after = rotated(width, by, number);
    let out = after / size.modulus() == 1;
    shown(size, (after % size.modulus()) as u32, out, false, out)
}

ghost use Rattle.std.specs.Prelude.{◌≡◌, ◌≤◌};
ghost use Rattle.z80_alu.specs.Decimal as decimal;

use crate::arithmetic::shown;
use crate::logic::parity;
use crate::{Flags80, Out80};

/// Whether the upper digit is corrected, which is C after it.
#[inline(always)]
#[tactic(auto, using(std::proofs::lemmas::Bool::Decides::nat_tests), unfolding(crate::specs::Decimal::corrects_upper))]
fn corrects_upper(a: u8, flags: Flags80) -> bool
    ensures { result ≡ decimal.corrects_upper a flags }
{
    flags.c || a > 0x99
}

/// 6, 60h, both or nothing.
#[inline(always)]
#[tactic(auto, using(std::proofs::lemmas::Bool::Decides::nat_tests), unfolding(crate::specs::Decimal::correction))]
fn correction(a: u8, flags: Flags80) -> u8
    ensures value { result ≡ decimal.correction a flags }
    ensures most { result ≤ 0x66 }
{
    let lower = if flags.h || a & 15 > 9 { 0x06 } else { 0 };
    let upper = if corrects_upper(a, flags) { 0x60 } else { 0 };
    lower + upper
}

/// The accumulator, corrected.
#[inline(always)]
#[tactic(auto, unfolding(crate::specs::Decimal::corrected))]
fn corrected(a: u8, flags: Flags80) -> u8
    ensures { result ≡ decimal.corrected a flags }
{
    let by = correction(a, flags);
    if flags.n {
        a.wrapping_sub(by)
    } else {
        a.wrapping_add(by)
    }
}

/// DAA
#[tactic(auto, unfolding(crate::specs::Decimal::adjusted))]
pub fn adjusted(a: u8, flags: Flags80) -> Out80
    ensures { result ≡ decimal.adjusted a flags }
{
    let value = corrected(a, flags);
    let half = (a ^ value) >> 4 & 1 == 1;
    shown(
        value,
        half,
        parity(value),
        flags.n,
        corrects_upper(a, flags),
    )
}

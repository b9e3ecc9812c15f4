ghost use Rattle.std.specs.Prelude.{◌≡◌, ◌<◌};
ghost use Rattle.md_word.specs.Width.{modulus_of};
ghost use Rattle.m68k_alu.specs.Arithmetic as arithmetic;

use crate::Out;
use crate::results::shown;
use md_word::{Flags, Size};

/// The target, the source and a carry added.
#[tactic(auto, using(std::proofs::lemmas::Bool::Decides::nat_tests), unfolding(crate::specs::Arithmetic::added))]
pub fn added(size: Size, source: u32, target: u32, carry: bool) -> Out
    requires source { source < modulus_of size }
    requires target { target < modulus_of size }
    ensures value { result ≡ arithmetic.added size source target carry }
    ensures below { result.value < modulus_of size }
{
    let sum = u64::from(source) + u64::from(target) + u64::from(carry);
    let out = sum >= size.modulus();
    let value = (sum % size.modulus()) as u32;
    shown(
        size,
        value,
        out,
        size.sum_overflows(target, source, carry),
        out,
    )
}

/// The target less the source and a borrow, within the size.
#[tactic(auto, using(std::proofs::lemmas::Int::ints, std::proofs::lemmas::Bool::Decides::nat_tests), unfolding(crate::specs::Arithmetic::difference))]
fn difference(size: Size, source: u32, target: u32, borrow: bool) -> u32
    requires source { source < modulus_of size }
    requires target { target < modulus_of size }
    ensures value { result ≡ arithmetic.difference size source target borrow }
    ensures below { result < modulus_of size }
{
    let taken = u64::from(source) + u64::from(borrow);
    ((u64::from(target) + size.modulus() - taken) % size.modulus()) as u32
}

/// The target less the source and a borrow.
#[tactic(auto, using(std::proofs::lemmas::Bool::Decides::nat_tests), unfolding(crate::specs::Arithmetic::subtracted))]
pub fn subtracted(size: Size, source: u32, target: u32, borrow: bool) -> Out
    requires source { source < modulus_of size }
    requires target { target < modulus_of size }
    ensures value { result ≡ arithmetic.subtracted size source target borrow }
    ensures below { result.value < modulus_of size }
{
    let below = u64::from(target) < u64::from(source) + u64::from(borrow);
    let value = difference(size, source, target, borrow);
    shown(
        size,
        value,
        below,
        size.difference_overflows(target, source, borrow),
        below,
    )
}

/// The flags of the target less the source, but for X.
#[tactic(auto, unfolding(crate::specs::Arithmetic::compared))]
pub fn compared(size: Size, source: u32, target: u32, flags: Flags) -> Out
    requires source { source < modulus_of size }
    requires target { target < modulus_of size }
    ensures value { result ≡ arithmetic.compared size source target flags }
    ensures below { result.value < modulus_of size }
{
    let out = subtracted(size, source, target, false);
    Out {
        value: target,
        flags: Flags {
            x: flags.x,
            ..out.flags
        },
    }
}

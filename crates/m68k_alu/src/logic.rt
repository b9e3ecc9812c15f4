ghost use Rattle.std.specs.Prelude.{◌≡◌, ◌-◌, ◌<◌, bit_and, bit_or, bit_xor};
ghost use Rattle.md_word.specs.Width.{modulus_of};
ghost use Rattle.m68k_alu.specs.Results as results;

use crate::Out;
use crate::results::moved;
use md_word::{Flags, Size};

/// The bits that are 1 in both operands.
#[tactic(auto, using(md_word::proofs::Below::and_below))]
pub fn and(size: Size, source: u32, target: u32, flags: Flags) -> Out
    requires source { source < modulus_of size }
    requires target { target < modulus_of size }
    ensures value { result ≡ results.moved size (bit_and target source) flags }
    ensures below { result.value < modulus_of size }
{
    moved(size, target & source, flags)
}

/// The bits that are 1 in an operand.
#[tactic(auto, using(md_word::proofs::Below::or_below))]
pub fn or(size: Size, source: u32, target: u32, flags: Flags) -> Out
    requires source { source < modulus_of size }
    requires target { target < modulus_of size }
    ensures value { result ≡ results.moved size (bit_or target source) flags }
    ensures below { result.value < modulus_of size }
{
    moved(size, target | source, flags)
}

/// The bits that are 1 in one operand alone.
#[tactic(auto, using(md_word::proofs::Below::xor_below))]
pub fn exclusive_or(size: Size, source: u32, target: u32, flags: Flags) -> Out
    requires source { source < modulus_of size }
    requires target { target < modulus_of size }
    ensures value { result ≡ results.moved size (bit_xor target source) flags }
    ensures below { result.value < modulus_of size }
{
    moved(size, target ^ source, flags)
}

/// The bits that are 0 in the target.
pub fn complement(size: Size, target: u32, flags: Flags) -> Out
    requires target { target < modulus_of size }
    ensures value { result ≡ results.moved size (modulus_of size - 1 - target) flags }
    ensures below { result.value < modulus_of size }
{
    let all = (size.modulus() - 1) as u32;
    moved(size, all - target, flags)
}

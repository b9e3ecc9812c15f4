ghost use Rattle.std.specs.Prelude.{◌≡◌, ◌-◌, ◌<◌, bit_and, bit_or, bit_xor};
ghost use Rattle.md_word.specs.Width.{modulus_of};
ghost use Rattle.m68k_alu.specs.Bits as bits;

use crate::Out;
use crate::results::moved;
use md_word::{Flags, Size};

/// The bit that a number names, as a mask.
#[tactic(auto, unfolding(crate::specs::Bits::bit_named))]
fn bit_named(size: Size, number: u32) -> u32
    ensures mask { result ≡ bits.bit_named size number }
    ensures some { 0 < result }
    ensures below { result < modulus_of size }
{
    match size {
        Size::Byte => 1 << (number % 8),
        Size::Word => 1 << (number % 16),
        Size::Long => 1 << (number % 32),
    }
}

/// The value with Z by the masked bit of the target.
#[tactic(auto, using(std::proofs::lemmas::Bool::Decides::nat_tests), unfolding(crate::specs::Bits::tested))]
fn tested(mask: u32, target: u32, flags: Flags, value: u32) -> Out
    requires { 0 < mask }
    ensures tested { result ≡ bits.tested mask target flags value }
    ensures value { result.value ≡ value }
{
    Out {
        value,
        flags: Flags {
            z: target / mask % 2 == 0,
            ..flags
        },
    }
}

/// Tests a bit.
pub fn bit_tested(size: Size, source: u32, target: u32, flags: Flags) -> Out
    requires { target < modulus_of size }
    ensures value { result ≡ bits.tested (bits.bit_named size source) target flags target }
    ensures below { result.value < modulus_of size }
{
    tested(bit_named(size, source), target, flags, target)
}

/// Tests a bit and turns it over.
#[tactic(auto, using(md_word::proofs::Below::xor_below))]
pub fn bit_changed(size: Size, source: u32, target: u32, flags: Flags) -> Out
    requires { target < modulus_of size }
    ensures value { result ≡ bits.tested (bits.bit_named size source) target flags
        (bit_xor target (bits.bit_named size source)) }
    ensures below { result.value < modulus_of size }
{
    let mask = bit_named(size, source);
    tested(mask, target, flags, target ^ mask)
}

/// Tests a bit and clears it.
#[tactic(auto, using(md_word::proofs::Below::and_below))]
pub fn bit_cleared(size: Size, source: u32, target: u32, flags: Flags) -> Out
    requires { target < modulus_of size }
    ensures value { result ≡ bits.tested (bits.bit_named size source) target flags
        (bit_and target (modulus_of size - 1 - bits.bit_named size source)) }
    ensures below { result.value < modulus_of size }
{
    let mask = bit_named(size, source);
    let others = (size.modulus() - 1) as u32 - mask;
    tested(mask, target, flags, target & others)
}

/// Tests a bit and sets it.
#[tactic(auto, using(md_word::proofs::Below::or_below))]
pub fn bit_set(size: Size, source: u32, target: u32, flags: Flags) -> Out
    requires { target < modulus_of size }
    ensures value { result ≡ bits.tested (bits.bit_named size source) target flags
        (bit_or target (bits.bit_named size source)) }
    ensures below { result.value < modulus_of size }
{
    let mask = bit_named(size, source);
    tested(mask, target, flags, target | mask)
}

/// The narrower number with its sign extended.
#[tactic(auto, using(std::proofs::lemmas::Int::ints, std::proofs::lemmas::Bool::Decides::nat_tests), unfolding(crate::specs::Bits::widened, md_word::specs::Width::signed_of))]
pub fn widened(size: Size, value: u32) -> u32
    requires { value < modulus_of size }
    ensures value { result ≡ bits.widened size value }
    ensures below { result < modulus_of size }
{
    let byte = value % 0x100;
    let word = value % 0x1_0000;
    match size {
        Size::Byte => value,
        Size::Word => if byte < 0x80 { byte } else { byte + 0xff00 },
        Size::Long => if word < 0x8000 {
            word
        } else {
            word + 0xffff_0000
        },
    }
}

/// The halves of a long exchanged.
#[tactic(auto, unfolding(crate::specs::Bits::swapped))]
pub fn swapped(value: u32) -> u32
    ensures { result ≡ bits.swapped value }
{
    value % 0x1_0000 * 0x1_0000 + value / 0x1_0000
}

/// The flags of a byte, and the byte with its sign bit set.
#[tactic(auto, unfolding(crate::specs::Bits::set_tested))]
pub fn set_tested(target: u32, flags: Flags) -> Out
    ensures value { result ≡ bits.set_tested target flags }
    ensures below { result.value < 0x100 }
{
    Out {
        value: target % 0x80 + 0x80,
        flags: moved(Size::Byte, target, flags).flags,
    }
}

/// The product of the low words.
#[tactic(auto, unfolding(crate::specs::Bits::product))]
pub fn product(source: u32, target: u32) -> u32
    ensures { result ≡ bits.product source target }
{
    (source % 0x1_0000) * (target % 0x1_0000)
}

/// The product of the low words in two's complement.
#[tactic(auto, unfolding(crate::specs::Bits::signed_product))]
pub fn signed_product(source: u32, target: u32) -> u32
    ensures { result ≡ bits.signed_product source target }
{
    let product = Size::Word.signed(target % 0x1_0000) * Size::Word.signed(source % 0x1_0000);
    product.rem_euclid(0x1_0000_0000) as u32
}

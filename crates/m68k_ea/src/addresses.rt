ghost use Rattle.std.specs.Prelude.{◌≡◌, ◌^◌, ◌<◌, ◌-ℤ◌, pos};
ghost use Rattle.md_word.specs.Width.{signed_of, word_of};
ghost use Rattle.md_word.specs.declared.size.Size.TheVariants.{Byte, Word};
ghost use Rattle.m68k_ea.specs.Addresses as addresses;
ghost use Rattle.m68k_ea.specs.Addresses.{address_sum, index_value};

use md_word::{Regs, Size, extend};

/// The number of A7.
const STACK_POINTER: u8 = 7;

/// By how many bytes (An)+ and −(An) move their register.
pub fn step_of(size: Size, number: u8) -> u32
    ensures { result ≡ addresses.step_of size number }
{
    match size {
        Size::Byte => if number == STACK_POINTER { 2 } else { 1 },
        Size::Word => 2,
        Size::Long => 4,
    }
}

/// What an index register adds, modulo 2^32.
#[tactic(auto, using(std::proofs::lemmas::Int::ints, std::proofs::lemmas::Bool::Decides::nat_tests), unfolding(crate::specs::Addresses::index_value, md_word::specs::Width::extended, md_word::specs::Width::signed_of))]
fn index(regs: &Regs, number: u8, long: bool) -> u32
    requires { number < 16 }
    ensures { result ≡ word_of (2 ^ 32) (index_value regs.now number long) }
{
    let register = regs.register(number);
    if long {
        register
    } else {
        extend(register, Size::Word)
    }
}

/// A short address with its sign extended.
#[tactic(auto, using(std::proofs::lemmas::Int::ints), unfolding(crate::specs::Addresses::address_sum, md_word::specs::Width::extended))]
pub fn short(address: u16) -> u32
    ensures { result ≡ address_sum (signed_of Word address) (pos 0) (pos 0) }
{
    extend(u32::from(address), Size::Word)
}

/// An address so many bytes higher.
#[tactic(auto, using(std::proofs::lemmas::Int::ints), unfolding(crate::specs::Addresses::address_sum))]
pub fn raised(base: u32, by: u32) -> u32
    ensures { result ≡ address_sum (pos base) (pos 0) (pos by) }
{
    base.wrapping_add(by)
}

/// An address so many bytes lower.
#[tactic(auto, using(std::proofs::lemmas::Int::ints), unfolding(crate::specs::Addresses::address_sum))]
pub fn lowered(base: u32, by: u32) -> u32
    ensures { result ≡ address_sum (pos base) (pos 0) (pos 0 -ℤ pos by) }
{
    base.wrapping_sub(by)
}

/// A base and a displacement of 16 bits.
#[tactic(auto, using(std::proofs::lemmas::Int::ints, std::proofs::lemmas::Bool::Decides::nat_tests), unfolding(crate::specs::Addresses::address_sum, md_word::specs::Width::extended, md_word::specs::Width::signed_of))]
pub fn displaced(base: u32, by: u16) -> u32
    ensures { result ≡ address_sum (pos base) (pos 0) (signed_of Word by) }
{
    base.wrapping_add(extend(u32::from(by), Size::Word))
}

/// A base, an index register and a displacement of 8 bits.
#[tactic(auto, using(std::proofs::lemmas::Int::ints, std::proofs::lemmas::Bool::Decides::nat_tests), unfolding(crate::specs::Addresses::address_sum, md_word::specs::Width::extended, md_word::specs::Width::signed_of))]
pub fn indexed(base: u32, regs: &Regs, number: u8, long: bool, by: u8) -> u32
    requires { number < 16 }
    ensures { result ≡ address_sum (pos base) (index_value regs.now number long) (signed_of Byte by) }
{
    let index = index(regs, number, long);
    base.wrapping_add(index)
        .wrapping_add(extend(u32::from(by), Size::Byte))
}

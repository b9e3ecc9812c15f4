ghost use Rattle.std.specs.Prelude.{◌≡◌};
ghost use Rattle.md_word.specs.Modes.{IsMode};
ghost use Rattle.m68k_ea.specs.Places.{IsPlace, OddExactly, place_of};
ghost use Rattle.m68k_ea.specs.Places as places;

use crate::Place;
use crate::addresses::{displaced, indexed, lowered, short, step_of};
use md_word::{Mode, Regs, Size};

/// Whether an operand of this size may not be at this address.
#[tactic(auto, using(std::proofs::lemmas::Bool::Decides::nat_tests))]
fn is_misaligned(size: Size, address: u32) -> bool
    ensures { result ≡ places.is_misaligned size address }
{
    match size {
        Size::Byte => false,
        Size::Word | Size::Long => address % 2 == 1,
    }
}

/// An operand in memory.
#[tactic(auto, unfolding(crate::specs::Places::standing))]
fn standing(size: Size, address: u32) -> Place
    ensures place { result ≡ places.standing size address }
    ensures within { IsPlace size result }
{
    if is_misaligned(size, address) {
        Place::Odd(address)
    } else {
        Place::Memory(address)
    }
}

/// The place of a mode's operand, before the instruction changes a register.
///
/// An address has 32 bits: it is the sum of its base, index and displacement modulo 2^32. `pc` is
/// where the mode's extension word is, and counts for d16(PC) and d8(PC,Xn) alone. An index
/// register is taken whole, or as a word with its sign extended. A7 is the active stack pointer.
/// −(An) names the memory below its register, which `stepped` moves. Of immediate data as much
/// counts as the size takes. A word or long whose address is odd is `Odd`, and nothing else is.
///
/// Source: M68000 Programmer's Reference Manual, section 2.2.
#[inline(always)]
#[tactic(auto, using(crate::proofs::Oddness::oddness, crate::proofs::Sums::base_alone))]
pub fn place(mode: Mode, size: Size, regs: &Regs, pc: u32) -> Place
    requires { IsMode mode }
    ensures place { result ≡ place_of mode size regs.now pc }
    ensures odd { OddExactly mode size regs.now pc result }
    ensures within { IsPlace size result }
{
    match mode {
        Mode::Data(number) => Place::Register(number),
        Mode::Address(number) => Place::Register(number + 8),
        Mode::Indirect(number) | Mode::PostInc(number) => { standing(size, regs.address(number)) }
        Mode::PreDec(number) => {
            standing(size, lowered(regs.address(number), step_of(size, number)))
        }
        Mode::Displaced(number, by) => standing(size, displaced(regs.address(number), by)),
        Mode::Indexed(number, index, long, by) => {
            standing(size, indexed(regs.address(number), regs, index, long, by))
        }
        Mode::AbsShort(address) => standing(size, short(address)),
        Mode::AbsLong(address) => standing(size, address),
        Mode::PcDisplaced(by) => standing(size, displaced(pc, by)),
        Mode::PcIndexed(index, long, by) => standing(size, indexed(pc, regs, index, long, by)),
        Mode::Immediate(value) => Place::Immediate(size.low(value)),
    }
}

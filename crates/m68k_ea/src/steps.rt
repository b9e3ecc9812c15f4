ghost use Rattle.std.specs.Prelude.{◌≡◌};
ghost use Rattle.md_word.specs.Modes.{IsMode};
ghost use Rattle.m68k_ea.specs.Steps as steps;

use crate::addresses::{lowered, raised, step_of};
use md_word::{Mode, Regs, Size};

/// The registers once a mode's operand was used: that of (An)+ is moved up and that of −(An) down,
/// by the bytes of the operand; of other modes nothing changes.
///
/// A7 is the active stack pointer, and a byte moves it by 2. Addresses are modulo 2^32.
/// Source: M68000 Programmer's Reference Manual, sections 2.2.4 and 2.2.5.
#[tactic(auto, using(crate::proofs::Stepping::stepped_beside), unfolding(crate::specs::Steps::moved))]
pub fn stepped(mode: Mode, size: Size, regs: &Regs) -> Regs
    requires { IsMode mode }
    ensures stepped { result ≡ steps.stepped mode size regs.now }
    ensures points { steps.PointsBeside mode size regs.now result }
{
    // The proof knows the length of an array once it is read.
    let _registers = regs.a;
    let mut after = *regs;
    match mode {
        Mode::PostInc(number) => {
            after.set_address(number, raised(regs.address(number), step_of(size, number)));
        }
        Mode::PreDec(number) => {
            after.set_address(number, lowered(regs.address(number), step_of(size, number)));
        }
        _ => {}
    }
    after
}

/// Moves the register of (An)+ up and that of −(An) down, by the bytes of the operand.
#[tactic(auto, using(crate::proofs::Stepping::stepped_beside), unfolding(crate::specs::Steps::moved))]
pub fn step(mode: Mode, size: Size, regs: &mut Regs)
    requires { IsMode mode }
    ensures stepped { regs.new ≡ steps.stepped mode size regs.old }
    ensures points { steps.PointsBeside mode size regs.old regs.new }
{
    // The proof knows the length of an array once it is read.
    let _registers = regs.a;
    match mode {
        Mode::PostInc(number) => {
            let at = regs.address(number);
            regs.set_address(number, raised(at, step_of(size, number)));
        }
        Mode::PreDec(number) => {
            let at = regs.address(number);
            regs.set_address(number, lowered(at, step_of(size, number)));
        }
        _ => {}
    }
}

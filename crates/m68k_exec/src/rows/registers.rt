ghost use Rattle.m68k_access.specs.Outcomes.{outcome_of};
ghost use Rattle.std.specs.Prelude.{◌≡◌, ◌<◌};
ghost use Rattle.m68k_exec.specs.Rows.Registers as registers;

use crate::Outcome;
use m68k_access::shapes::change_data;
use md_word::{Regs, Size, Task, extend};

/// MOVEQ.
#[tactic(auto, unfolding(crate::specs::Rows::Registers::moveq))]
pub fn moveq(number: u8, byte: u8, regs: &mut Regs) -> Outcome
    requires { number < 8 }
    ensures { outcome_of result regs.new ≡ registers.moveq number byte regs.old }
{
    let value = extend(u32::from(byte), Size::Byte);
    change_data(Task::Move, Size::Long, value, number, regs)
}

/// EXG of two registers: 0 to 7 for D0 to D7, 8 to 15 for A0 to A7.
#[tactic(auto, unfolding(crate::specs::Rows::Registers::exg))]
pub fn exg(first: u8, second: u8, regs: &mut Regs) -> Outcome
    requires first { first < 16 }
    requires second { second < 16 }
    ensures { outcome_of result regs.new ≡ registers.exg first second regs.old }
{
    let one = regs.register(first);
    let other = regs.register(second);
    regs.set_register(first, other);
    regs.set_register(second, one);
    Outcome::plain()
}

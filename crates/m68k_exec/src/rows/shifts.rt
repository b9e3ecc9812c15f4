ghost use Rattle.m68k_access.specs.Outcomes.{outcome_of};
ghost use Rattle.std.specs.Prelude.{◌≡◌, ◌<◌};
ghost use Rattle.m68k_exec.specs.Rows.Shifts as shifts;

use crate::Outcome;
use m68k_access::shapes::change_data;
use md_word::{Regs, Size, Task};

/// ASx, LSx, ROXx, ROx of a data register so many times.
#[tactic(auto, unfolding(crate::specs::Rows::Shifts::shift_by_number))]
pub fn shift_by_number(task: Task, size: Size, count: u8, number: u8, regs: &mut Regs) -> Outcome
    requires count { count < 64 }
    requires number { number < 8 }
    ensures { outcome_of result regs.new ≡ shifts.shift_by_number task size count number regs.old }
{
    Outcome {
        count,
        ..change_data(task, size, u32::from(count), number, regs)
    }
}

/// ASx, LSx, ROXx, ROx of the second data register, as often as the first says, modulo 64.
#[tactic(auto, unfolding(crate::specs::Rows::Shifts::shift_by_register))]
pub fn shift_by_register(task: Task, size: Size, first: u8, second: u8, regs: &mut Regs) -> Outcome
    requires first { first < 8 }
    requires second { second < 8 }
    ensures { outcome_of result regs.new ≡ shifts.shift_by_register task size first second regs.old }
{
    let count = regs.register(first) % 64;
    shift_by_number(task, size, count as u8, second, regs)
}

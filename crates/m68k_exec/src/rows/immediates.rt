ghost use Rattle.m68k_access.specs.Outcomes.{outcome_of};
ghost use Rattle.std.specs.Prelude.{◌≡◌, ◌+◌, ◌<◌, ◌≤◌};
ghost use Rattle.arrayvec.specs.ArrayVec.{array_vec_len};
ghost use Rattle.md_word.specs.Modes.{IsMode};
ghost use Rattle.md_word.specs.Width.{modulus_of};
ghost use Rattle.m68k_access.specs.Clauses.{Ends, done_of, memory_of};
ghost use Rattle.m68k_exec.specs.Rows.Immediates as immediates;

use crate::rows::status::{set_ccr, set_sr};
use crate::{Context, Outcome, Progress, Stop};
use m68k_access::shapes::{change_operand, refuse, test_operand};
use m68k_access::vector::PRIVILEGE_VIOLATION;
use m68k_alu::compute;
use md_word::{Mode, Regs, Size, Task};

/// Where the target's words are: after the number.
pub fn after_number(size: Size, start: u32) -> u32
    ensures { result ≡ immediates.after_number size start }
{
    match size {
        Size::Byte | Size::Word => start.wrapping_add(4),
        Size::Long => start.wrapping_add(6),
    }
}

/// ORI, ANDI, SUBI, ADDI, EORI.
#[tactic(auto, unfolding(crate::specs::Rows::Immediates::immediate))]
pub fn immediate(
    task: Task,
    size: Size,
    number: u32,
    mode: Mode,
    start: u32,
    context: &Context,
    regs: &mut Regs,
    progress: &mut Progress,
) -> Result<Outcome, Stop>
    requires mode { IsMode mode }
    requires number { number < modulus_of size }
    requires fresh { array_vec_len progress.old.writes ≡ 0 }
    ensures value { Ends result regs.new (done_of progress.new) (immediates.immediate task size number mode start regs.old (memory_of context.now) (done_of progress.old)) }
    ensures written { array_vec_len progress.new.writes ≤ array_vec_len progress.old.writes + 4 }
{
    let pc = after_number(size, start);
    change_operand(task, size, number, mode, pc, context, regs, progress)
}

/// CMPI.
#[tactic(auto, unfolding(crate::specs::Rows::Immediates::compare_immediate))]
pub fn compare_immediate(
    size: Size,
    number: u32,
    mode: Mode,
    start: u32,
    context: &Context,
    regs: &mut Regs,
    progress: &mut Progress,
) -> Result<Outcome, Stop>
    requires mode { IsMode mode }
    requires number { number < modulus_of size }
    ensures value { Ends result regs.new (done_of progress.new) (immediates.compare_immediate size number mode start regs.old (memory_of context.now) (done_of progress.old)) }
    ensures written { array_vec_len progress.new.writes ≤ array_vec_len progress.old.writes }
{
    let pc = after_number(size, start);
    test_operand(Task::Cmp, size, number, mode, pc, context, regs, progress)
}

/// ORI, ANDI, EORI to CCR.
#[tactic(auto, unfolding(crate::specs::Rows::Immediates::immediate_to_ccr))]
pub fn immediate_to_ccr(task: Task, number: u8, regs: &mut Regs) -> Outcome
    ensures { outcome_of result regs.new ≡ immediates.immediate_to_ccr task number regs.old }
{
    let ccr = u32::from(regs.sr) % 0x100;
    let out = compute(task, Size::Byte, u32::from(number), ccr, regs.flags());
    set_ccr(out.value as u16, regs);
    Outcome::plain()
}

/// ORI, ANDI, EORI to SR, which are privileged.
#[tactic(auto, unfolding(crate::specs::Rows::Immediates::immediate_to_sr))]
pub fn immediate_to_sr(task: Task, number: u16, start: u32, regs: &mut Regs) -> Outcome
    ensures { outcome_of result regs.new ≡ immediates.immediate_to_sr task number start regs.old }
{
    let sr = u32::from(regs.sr);
    let out = compute(task, Size::Word, u32::from(number), sr, regs.flags());
    if regs.is_supervisor() {
        set_sr(out.value as u16, regs);
        Outcome::plain()
    } else {
        refuse(PRIVILEGE_VIOLATION, start, regs)
    }
}

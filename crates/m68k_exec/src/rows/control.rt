ghost use Rattle.m68k_access.specs.Outcomes.{outcome_of};
ghost use Rattle.std.specs.Prelude.{◌≡◌, ◌+◌, ◌<◌, ◌≤◌};
ghost use Rattle.arrayvec.specs.ArrayVec.{array_vec_len};
ghost use Rattle.md_word.specs.Modes.{IsMode};
ghost use Rattle.md_word.specs.declared.size.Size.TheVariants.{Word};
ghost use Rattle.m68k_access.specs.Clauses.{Ends, done_of, memory_of};
ghost use Rattle.m68k_exec.specs.Rows.Control as control;

use crate::rows::status::{set_ccr, set_sr};
use crate::{Context, Outcome, Progress, Stop};
use m68k_access::operands::{effective, load, pull, push};
use m68k_access::shapes::{end_in, jump_to, refuse};
use m68k_access::vector::{
    ILLEGAL_INSTRUCTION, LINE_A, LINE_F, OUT_OF_BOUNDS, OVERFLOW, PRIVILEGE_VIOLATION, TRAP,
};
use md_word::{Flags, Mode, Regs, Size};

/// JMP. An odd address is the next instruction's error.
#[tactic(auto, unfolding(crate::specs::Rows::Control::jmp))]
pub fn jmp(mode: Mode, start: u32, regs: &mut Regs) -> Outcome
    requires { IsMode mode }
    ensures { outcome_of result regs.new ≡ control.jmp mode start regs.old }
{
    let target = effective(mode, Size::Long, start.wrapping_add(2), regs);
    jump_to(target, regs)
}

/// JSR, which pushes the next instruction's address.
#[tactic(auto, unfolding(crate::specs::Rows::Control::jsr))]
pub fn jsr(
    mode: Mode,
    start: u32,
    context: &Context,
    regs: &mut Regs,
    progress: &mut Progress,
) -> Result<Outcome, Stop>
    requires mode { IsMode mode }
    requires fresh { array_vec_len progress.old.writes ≡ 0 }
    ensures value { Ends result regs.new (done_of progress.new) (control.jsr mode start regs.old (memory_of context.now) (done_of progress.old)) }
    ensures written { array_vec_len progress.new.writes ≤ array_vec_len progress.old.writes + 4 }
{
    let target = effective(mode, Size::Long, start.wrapping_add(2), regs);
    push(Size::Long, regs.pc, context, regs, progress)?;
    Ok(jump_to(target, regs))
}

/// RTS.
#[tactic(auto, unfolding(crate::specs::Rows::Control::rts))]
pub fn rts(context: &Context, regs: &mut Regs, progress: &mut Progress) -> Result<Outcome, Stop>
    ensures value { Ends result regs.new (done_of progress.new) (control.rts regs.old (memory_of context.now) (done_of progress.old)) }
    ensures written { array_vec_len progress.new.writes ≤ array_vec_len progress.old.writes }
{
    let target = pull(Size::Long, context, regs, progress)?;
    Ok(jump_to(target, regs))
}

/// RTR.
#[tactic(auto, unfolding(crate::specs::Rows::Control::rtr))]
pub fn rtr(context: &Context, regs: &mut Regs, progress: &mut Progress) -> Result<Outcome, Stop>
    ensures value { Ends result regs.new (done_of progress.new) (control.rtr regs.old (memory_of context.now) (done_of progress.old)) }
    ensures written { array_vec_len progress.new.writes ≤ array_vec_len progress.old.writes }
{
    let codes = pull(Size::Word, context, regs, progress)?;
    let target = pull(Size::Long, context, regs, progress)?;
    set_ccr(codes as u16, regs);
    Ok(jump_to(target, regs))
}

/// RTE in supervisor mode.
#[tactic(auto, unfolding(crate::specs::Rows::Control::return_from_exception))]
fn return_from_exception(
    context: &Context,
    regs: &mut Regs,
    progress: &mut Progress,
) -> Result<Outcome, Stop>
    ensures value { Ends result regs.new (done_of progress.new) (control.return_from_exception regs.old (memory_of context.now) (done_of progress.old)) }
    ensures written { array_vec_len progress.new.writes ≤ array_vec_len progress.old.writes }
{
    let status = pull(Size::Word, context, regs, progress)?;
    let target = pull(Size::Long, context, regs, progress)?;
    set_sr(status as u16, regs);
    Ok(jump_to(target, regs))
}

/// RTE, which pulls nothing in user mode.
#[tactic(auto, unfolding(crate::specs::Rows::Control::rte))]
pub fn rte(
    start: u32,
    context: &Context,
    regs: &mut Regs,
    progress: &mut Progress,
) -> Result<Outcome, Stop>
    ensures value { Ends result regs.new (done_of progress.new) (control.rte start regs.old (memory_of context.now) (done_of progress.old)) }
    ensures written { array_vec_len progress.new.writes ≤ array_vec_len progress.old.writes }
{
    if regs.is_supervisor() {
        return_from_exception(context, regs, progress)
    } else {
        Ok(refuse(PRIVILEGE_VIOLATION, start, regs))
    }
}

/// TRAP, with the number 0 to 15.
#[tactic(auto, unfolding(crate::specs::Rows::Control::trap))]
pub fn trap(number: u8, regs: &Regs) -> Outcome
    requires { number < 16 }
    ensures { outcome_of result regs.now ≡ control.trap number regs.now }
{
    end_in(TRAP + number)
}

/// TRAPV.
#[tactic(auto, unfolding(crate::specs::Rows::Control::trapv))]
pub fn trapv(regs: &Regs) -> Outcome
    ensures { outcome_of result regs.now ≡ control.trapv regs.now }
{
    if regs.flags().v {
        end_in(OVERFLOW)
    } else {
        Outcome::plain()
    }
}

/// The bound was not kept: N says whether the value was below 0.
#[tactic(auto, unfolding(crate::specs::Rows::Control::caught))]
fn caught(negative: bool, regs: &mut Regs) -> Outcome
    ensures { outcome_of result regs.new ≡ control.caught negative regs.old }
{
    let flags = regs.flags();
    regs.set_flags(Flags {
        n: negative,
        ..flags
    });
    end_in(OUT_OF_BOUNDS)
}

/// A value in two's complement is to be from 0 to its bound.
#[tactic(auto, using(std::proofs::lemmas::Int::ints), unfolding(crate::specs::Rows::Control::checked))]
fn checked(value: u32, bound: u32, regs: &mut Regs) -> Outcome
    requires value { value < 0x1_0000 }
    requires bound { bound < 0x1_0000 }
    ensures { outcome_of result regs.new ≡ control.checked value bound regs.old }
{
    let signed = Size::Word.signed(value);
    if signed < 0 {
        caught(true, regs)
    } else if Size::Word.signed(bound) < signed {
        caught(false, regs)
    } else {
        Outcome::plain()
    }
}

/// CHK of a data register.
#[tactic(auto, unfolding(crate::specs::Rows::Control::chk))]
pub fn chk(
    number: u8,
    mode: Mode,
    start: u32,
    context: &Context,
    regs: &mut Regs,
    progress: &mut Progress,
) -> Result<Outcome, Stop>
    requires number { number < 8 }
    requires mode { IsMode mode }
    ensures value { Ends result regs.new (done_of progress.new) (control.chk number mode start regs.old (memory_of context.now) (done_of progress.old)) }
    ensures written { array_vec_len progress.new.writes ≤ array_vec_len progress.old.writes }
{
    let value = regs.register(number) % 0x1_0000;
    let bound = load(
        mode,
        Size::Word,
        start.wrapping_add(2),
        context,
        regs,
        progress,
    )?;
    Ok(checked(value, bound, regs))
}

/// ILLEGAL, and each opcode that is no instruction.
#[tactic(auto, unfolding(crate::specs::Rows::Control::illegal))]
pub fn illegal(start: u32, regs: &mut Regs) -> Outcome
    ensures { outcome_of result regs.new ≡ control.illegal start regs.old }
{
    refuse(ILLEGAL_INSTRUCTION, start, regs)
}

/// An opcode whose first digit is A.
#[tactic(auto, unfolding(crate::specs::Rows::Control::line_a_opcode))]
pub fn line_a_opcode(start: u32, regs: &mut Regs) -> Outcome
    ensures { outcome_of result regs.new ≡ control.line_a_opcode start regs.old }
{
    refuse(LINE_A, start, regs)
}

/// An opcode whose first digit is F.
#[tactic(auto, unfolding(crate::specs::Rows::Control::line_f_opcode))]
pub fn line_f_opcode(start: u32, regs: &mut Regs) -> Outcome
    ensures { outcome_of result regs.new ≡ control.line_f_opcode start regs.old }
{
    refuse(LINE_F, start, regs)
}

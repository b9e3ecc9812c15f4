ghost use Rattle.m68k_access.specs.Outcomes.{outcome_of};
ghost use Rattle.std.specs.Prelude.{◌≡◌, ◌<◌, ◌≤◌};
ghost use Rattle.arrayvec.specs.ArrayVec.{array_vec_len};
ghost use Rattle.md_word.specs.Modes.{IsMode};
ghost use Rattle.md_word.specs.declared.size.Size.TheVariants.{Word};
ghost use Rattle.m68k_access.specs.Clauses.{Ends, done_of, memory_of};
ghost use Rattle.m68k_exec.specs.Rows.Quotients as quotients;

use crate::{Context, Outcome, Progress, Stop};
use m68k_access::operands::load;
use m68k_access::shapes::end_in;
use m68k_access::vector::ZERO_DIVIDE;
use m68k_alu::{Quotient, divide};
use md_word::{Mode, Regs, Size};

/// The outcome of a division: a quotient is in the register, and a divisor of 0 is an exception.
#[tactic(auto, unfolding(crate::specs::Rows::Quotients::finished))]
fn finished(quotient: Quotient, number: u8, regs: &mut Regs) -> Outcome
    requires { number < 8 }
    ensures { outcome_of result regs.new ≡ quotients.finished quotient number regs.old }
{
    let flags = regs.flags();
    regs.set_flags(quotient.flags(flags));
    match quotient {
        Quotient::Zero => end_in(ZERO_DIVIDE),
        Quotient::Overflow => Outcome::plain(),
        Quotient::Value(value) => {
            regs.set_register(number, value);
            Outcome::plain()
        }
    }
}

/// A data register divided by the source, as signed numbers or not.
#[tactic(auto, unfolding(crate::specs::Rows::Quotients::quotient_by))]
fn quotient_by(
    signed: bool,
    number: u8,
    mode: Mode,
    start: u32,
    context: &Context,
    regs: &mut Regs,
    progress: &mut Progress,
) -> Result<Outcome, Stop>
    requires number { number < 8 }
    requires mode { IsMode mode }
    ensures value { Ends result regs.new (done_of progress.new) (quotients.quotient_by signed number mode start regs.old (memory_of context.now) (done_of progress.old)) }
    ensures written { array_vec_len progress.new.writes ≤ array_vec_len progress.old.writes }
{
    let pc = start.wrapping_add(2);
    let source = load(mode, Size::Word, pc, context, regs, progress)?;
    let dividend = regs.register(number);
    let quotient = divide(signed, source as u16, dividend);
    Ok(finished(quotient, number, regs))
}

/// DIVU.
#[tactic(auto, unfolding(crate::specs::Rows::Quotients::divu))]
pub fn divu(
    number: u8,
    mode: Mode,
    start: u32,
    context: &Context,
    regs: &mut Regs,
    progress: &mut Progress,
) -> Result<Outcome, Stop>
    requires number { number < 8 }
    requires mode { IsMode mode }
    ensures value { Ends result regs.new (done_of progress.new) (quotients.divu number mode start regs.old (memory_of context.now) (done_of progress.old)) }
    ensures written { array_vec_len progress.new.writes ≤ array_vec_len progress.old.writes }
{
    quotient_by(false, number, mode, start, context, regs, progress)
}

/// DIVS.
#[tactic(auto, unfolding(crate::specs::Rows::Quotients::divs))]
pub fn divs(
    number: u8,
    mode: Mode,
    start: u32,
    context: &Context,
    regs: &mut Regs,
    progress: &mut Progress,
) -> Result<Outcome, Stop>
    requires number { number < 8 }
    requires mode { IsMode mode }
    ensures value { Ends result regs.new (done_of progress.new) (quotients.divs number mode start regs.old (memory_of context.now) (done_of progress.old)) }
    ensures written { array_vec_len progress.new.writes ≤ array_vec_len progress.old.writes }
{
    quotient_by(true, number, mode, start, context, regs, progress)
}

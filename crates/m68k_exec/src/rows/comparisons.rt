ghost use Rattle.m68k_access.specs.Outcomes.{outcome_of};
ghost use Rattle.std.specs.Prelude.{◌≡◌, ◌+◌, ◌<◌, ◌≤◌};
ghost use Rattle.arrayvec.specs.ArrayVec.{array_vec_len};
ghost use Rattle.md_word.specs.Modes.{IsMode};
ghost use Rattle.md_word.specs.Width.{modulus_of};
ghost use Rattle.m68k_access.specs.Clauses.{Ends, done_of, memory_of};
ghost use Rattle.m68k_exec.specs.Rows.Comparisons as comparisons;

use crate::{Context, Outcome, Progress, Stop};
use m68k_access::operands::load;
use m68k_alu::compute;
use md_word::{Mode, Regs, Size, Task, extend};

/// Sets the flags by the target less the source.
#[tactic(auto, unfolding(crate::specs::Rows::Comparisons::compared))]
pub fn compared(size: Size, source: u32, target: u32, regs: &mut Regs) -> Outcome
    requires source { source < modulus_of size }
    requires target { target < modulus_of size }
    ensures { outcome_of result regs.new ≡ comparisons.compared size source target regs.old }
{
    let out = compute(Task::Cmp, size, source, target, regs.flags());
    regs.set_flags(out.flags);
    Outcome::plain()
}

/// CMP of a data register.
#[tactic(auto, unfolding(crate::specs::Rows::Comparisons::cmp))]
pub fn cmp(
    size: Size,
    number: u8,
    mode: Mode,
    start: u32,
    context: &Context,
    regs: &mut Regs,
    progress: &mut Progress,
) -> Result<Outcome, Stop>
    requires number { number < 8 }
    requires mode { IsMode mode }
    ensures value { Ends result regs.new (done_of progress.new) (comparisons.cmp size number mode start regs.old (memory_of context.now) (done_of progress.old)) }
    ensures written { array_vec_len progress.new.writes ≤ array_vec_len progress.old.writes }
{
    let pc = start.wrapping_add(2);
    let source = load(mode, size, pc, context, regs, progress)?;
    let target = size.low(regs.register(number));
    Ok(compared(size, source, target, regs))
}

/// CMPA of an address register: a word has its sign extended.
#[tactic(auto, unfolding(crate::specs::Rows::Comparisons::cmpa))]
pub fn cmpa(
    size: Size,
    number: u8,
    mode: Mode,
    start: u32,
    context: &Context,
    regs: &mut Regs,
    progress: &mut Progress,
) -> Result<Outcome, Stop>
    requires number { number < 8 }
    requires mode { IsMode mode }
    ensures value { Ends result regs.new (done_of progress.new) (comparisons.cmpa size number mode start regs.old (memory_of context.now) (done_of progress.old)) }
    ensures written { array_vec_len progress.new.writes ≤ array_vec_len progress.old.writes }
{
    let pc = start.wrapping_add(2);
    let source = load(mode, size, pc, context, regs, progress)?;
    let target = regs.address(number);
    Ok(compared(Size::Long, extend(source, size), target, regs))
}

/// CMPM (Ay)+,(Ax)+: of x and y.
#[tactic(auto, unfolding(crate::specs::Rows::Comparisons::cmpm))]
pub fn cmpm(
    size: Size,
    x: u8,
    y: u8,
    start: u32,
    context: &Context,
    regs: &mut Regs,
    progress: &mut Progress,
) -> Result<Outcome, Stop>
    requires x { x < 8 }
    requires y { y < 8 }
    ensures value { Ends result regs.new (done_of progress.new) (comparisons.cmpm size x y start regs.old (memory_of context.now) (done_of progress.old)) }
    ensures written { array_vec_len progress.new.writes ≤ array_vec_len progress.old.writes }
{
    let pc = start.wrapping_add(2);
    let source = load(Mode::PostInc(y), size, pc, context, regs, progress)?;
    let target = load(Mode::PostInc(x), size, pc, context, regs, progress)?;
    Ok(compared(size, source, target, regs))
}

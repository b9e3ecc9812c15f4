ghost use Rattle.std.specs.Prelude.{◌≡◌, ◌+◌, ◌<◌, ◌≤◌};
ghost use Rattle.arrayvec.specs.ArrayVec.{array_vec_len};
ghost use Rattle.md_word.specs.Modes.{IsMode};
ghost use Rattle.md_word.specs.declared.size.Size.TheVariants.{Byte};
ghost use Rattle.m68k_access.specs.Clauses.{Ends, done_of, memory_of};
ghost use Rattle.m68k_exec.specs.Rows.Multiprecision as multiprecision;

use crate::{Context, Outcome, Progress, Stop};
use m68k_access::operands::load;
use m68k_access::shapes::change_operand;
use md_word::{Mode, Regs, Size, Task};

/// ADDX, SUBX: the register of the source is lowered before that of the target.
#[tactic(auto, unfolding(crate::specs::Rows::Multiprecision::extended))]
pub fn extended(
    task: Task,
    size: Size,
    source: Mode,
    target: Mode,
    start: u32,
    context: &Context,
    regs: &mut Regs,
    progress: &mut Progress,
) -> Result<Outcome, Stop>
    requires source { IsMode source }
    requires target { IsMode target }
    requires fresh { array_vec_len progress.old.writes ≡ 0 }
    ensures value { Ends result regs.new (done_of progress.new) (multiprecision.extended task size source target start regs.old (memory_of context.now) (done_of progress.old)) }
    ensures written { array_vec_len progress.new.writes ≤ array_vec_len progress.old.writes + 4 }
{
    let pc = start.wrapping_add(2);
    let part = load(source, size, pc, context, regs, progress)?;
    change_operand(task, size, part, target, pc, context, regs, progress)
}

/// ABCD, SBCD.
#[tactic(auto, unfolding(crate::specs::Rows::Multiprecision::decimal))]
pub fn decimal(
    task: Task,
    source: Mode,
    target: Mode,
    start: u32,
    context: &Context,
    regs: &mut Regs,
    progress: &mut Progress,
) -> Result<Outcome, Stop>
    requires source { IsMode source }
    requires target { IsMode target }
    requires fresh { array_vec_len progress.old.writes ≡ 0 }
    ensures value { Ends result regs.new (done_of progress.new) (multiprecision.decimal task source target start regs.old (memory_of context.now) (done_of progress.old)) }
    ensures written { array_vec_len progress.new.writes ≤ array_vec_len progress.old.writes + 4 }
{
    extended(
        task,
        Size::Byte,
        source,
        target,
        start,
        context,
        regs,
        progress,
    )
}

ghost use Rattle.m68k_access.specs.Outcomes.{outcome_of};
ghost use Rattle.std.specs.Prelude.{◌≡◌, ◌+◌, ◌<◌, ◌≤◌};
ghost use Rattle.arrayvec.specs.ArrayVec.{array_vec_len};
ghost use Rattle.md_word.specs.Modes.{IsMode};
ghost use Rattle.md_word.specs.declared.size.Size.TheVariants.{Byte};
ghost use Rattle.m68k_access.specs.Clauses.{Ends, done_of, memory_of};
ghost use Rattle.m68k_exec.specs.Rows.Single as single;

use crate::{Context, Outcome, Progress, Stop};
use m68k_access::operands::load;
use m68k_access::shapes::{change_data, change_operand, test_operand};
use m68k_alu::compute;
use md_word::{Mode, Regs, Size, Task};

/// NEGX, CLR, NEG, NOT. CLR too reads its operand.
#[tactic(auto, unfolding(crate::specs::Rows::Single::unary))]
pub fn unary(
    task: Task,
    size: Size,
    mode: Mode,
    start: u32,
    context: &Context,
    regs: &mut Regs,
    progress: &mut Progress,
) -> Result<Outcome, Stop>
    requires mode { IsMode mode }
    requires fresh { array_vec_len progress.old.writes ≡ 0 }
    ensures value { Ends result regs.new (done_of progress.new) (single.unary task size mode start regs.old (memory_of context.now) (done_of progress.old)) }
    ensures written { array_vec_len progress.new.writes ≤ array_vec_len progress.old.writes + 4 }
{
    change_operand(
        task,
        size,
        0,
        mode,
        start.wrapping_add(2),
        context,
        regs,
        progress,
    )
}

/// NBCD.
#[tactic(auto, unfolding(crate::specs::Rows::Single::nbcd))]
pub fn nbcd(
    mode: Mode,
    start: u32,
    context: &Context,
    regs: &mut Regs,
    progress: &mut Progress,
) -> Result<Outcome, Stop>
    requires mode { IsMode mode }
    requires fresh { array_vec_len progress.old.writes ≡ 0 }
    ensures value { Ends result regs.new (done_of progress.new) (single.nbcd mode start regs.old (memory_of context.now) (done_of progress.old)) }
    ensures written { array_vec_len progress.new.writes ≤ array_vec_len progress.old.writes + 4 }
{
    change_operand(
        Task::Nbcd,
        Size::Byte,
        0,
        mode,
        start.wrapping_add(2),
        context,
        regs,
        progress,
    )
}

/// SWAP of a data register.
#[tactic(auto, unfolding(crate::specs::Rows::Single::swap))]
pub fn swap(number: u8, regs: &mut Regs) -> Outcome
    requires { number < 8 }
    ensures { outcome_of result regs.new ≡ single.swap number regs.old }
{
    change_data(Task::Swap, Size::Long, 0, number, regs)
}

/// EXT of a data register to this size.
#[tactic(auto, unfolding(crate::specs::Rows::Single::ext))]
pub fn ext(size: Size, number: u8, regs: &mut Regs) -> Outcome
    requires { number < 8 }
    ensures { outcome_of result regs.new ≡ single.ext size number regs.old }
{
    change_data(Task::Ext, size, 0, number, regs)
}

/// TST.
#[tactic(auto, unfolding(crate::specs::Rows::Single::tst))]
pub fn tst(
    size: Size,
    mode: Mode,
    start: u32,
    context: &Context,
    regs: &mut Regs,
    progress: &mut Progress,
) -> Result<Outcome, Stop>
    requires { IsMode mode }
    ensures value { Ends result regs.new (done_of progress.new) (single.tst size mode start regs.old (memory_of context.now) (done_of progress.old)) }
    ensures written { array_vec_len progress.new.writes ≤ array_vec_len progress.old.writes }
{
    let flags = regs.flags();
    let operand = load(mode, size, start.wrapping_add(2), context, regs, progress)?;
    let out = compute(Task::Move, size, operand, operand, flags);
    regs.set_flags(out.flags);
    Ok(Outcome::plain())
}

/// TAS, which on this board reads a byte in memory, and leaves it.
pub fn tas(
    mode: Mode,
    start: u32,
    context: &Context,
    regs: &mut Regs,
    progress: &mut Progress,
) -> Result<Outcome, Stop>
    requires mode { IsMode mode }
    requires fresh { array_vec_len progress.old.writes ≡ 0 }
    ensures value { Ends result regs.new (done_of progress.new) (single.tas mode start regs.old (memory_of context.now) (done_of progress.old)) }
    ensures written { array_vec_len progress.new.writes ≤ array_vec_len progress.old.writes + 4 }
{
    let pc = start.wrapping_add(2);
    match mode {
        Mode::Data(_) => {
            change_operand(Task::Tas, Size::Byte, 0, mode, pc, context, regs, progress)
        }
        _ => test_operand(Task::Tas, Size::Byte, 0, mode, pc, context, regs, progress),
    }
}

ghost use Rattle.std.specs.Prelude.{◌≡◌, ◌+◌, ◌≤◌};
ghost use Rattle.arrayvec.specs.ArrayVec.{array_vec_len};
ghost use Rattle.m68k_decode.specs.Ops.{IsOp};
ghost use Rattle.m68k_access.specs.Clauses.{Ends, done_of, memory_of};
ghost use Rattle.m68k_exec.specs.Sample.Execution as execution;
ghost use Rattle.m68k_exec.specs.Sample.Groups.{IsProduct};

use crate::rows::control::chk;
use crate::rows::multiprecision::{decimal, extended};
use crate::rows::products::{muls, mulu};
use crate::rows::quotients::{divs, divu};
use crate::{Context, Outcome, Progress, Stop};
use m68k_decode::Op;
use md_word::Regs;

/// Products, quotients, bounds, and sums of several parts.
#[inline(never)]
pub fn products(
    op: &Op,
    start: u32,
    context: &Context,
    regs: &mut Regs,
    progress: &mut Progress,
) -> Result<Outcome, Stop>
    requires group { IsProduct op.now }
    requires operands { IsOp op.now }
    requires fresh { array_vec_len progress.old.writes ≡ 0 }
    ensures value { Ends result regs.new (done_of progress.new) (execution.row op.now start regs.old (memory_of context.now) (done_of progress.old)) }
    ensures written { array_vec_len progress.new.writes ≤ array_vec_len progress.old.writes + 64 }
{
    match *op {
        Op::Chk(number, mode) => chk(number, mode, start, context, regs, progress),
        Op::Divu(number, mode) => divu(number, mode, start, context, regs, progress),
        Op::Divs(number, mode) => divs(number, mode, start, context, regs, progress),
        Op::Decimal(task, source, target) => {
            decimal(task, source, target, start, context, regs, progress)
        }
        Op::Extended(task, size, source, target) => {
            extended(task, size, source, target, start, context, regs, progress)
        }
        Op::Mulu(number, mode) => mulu(number, mode, start, context, regs, progress),
        Op::Muls(number, mode) => muls(number, mode, start, context, regs, progress),
        _ => unreachable!(),
    }
}

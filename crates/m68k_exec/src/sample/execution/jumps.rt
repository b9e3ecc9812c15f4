ghost use Rattle.std.specs.Prelude.{◌≡◌, ◌+◌, ◌≤◌};
ghost use Rattle.arrayvec.specs.ArrayVec.{array_vec_len};
ghost use Rattle.m68k_decode.specs.Ops.{IsOp};
ghost use Rattle.m68k_access.specs.Clauses.{Ends, done_of, memory_of};
ghost use Rattle.m68k_exec.specs.Sample.Execution as execution;
ghost use Rattle.m68k_exec.specs.Sample.Groups.{IsJump};

use crate::rows::branches::{bcc, bra, bsr, dbcc};
use crate::rows::control::{jmp, jsr, rts};
use crate::rows::setting::scc;
use crate::{Context, Outcome, Progress, Stop};
use m68k_decode::Op;
use md_word::Regs;

/// Branches, jumps, calls and what a condition sets.
#[inline(never)]
pub fn jumps(
    op: &Op,
    start: u32,
    context: &Context,
    regs: &mut Regs,
    progress: &mut Progress,
) -> Result<Outcome, Stop>
    requires group { IsJump op.now }
    requires operands { IsOp op.now }
    requires fresh { array_vec_len progress.old.writes ≡ 0 }
    ensures value { Ends result regs.new (done_of progress.new) (execution.row op.now start regs.old (memory_of context.now) (done_of progress.old)) }
    ensures written { array_vec_len progress.new.writes ≤ array_vec_len progress.old.writes + 64 }
{
    match *op {
        Op::Nop => Ok(Outcome::plain()),
        Op::Rts => rts(context, regs, progress),
        Op::Jsr(mode) => jsr(mode, start, context, regs, progress),
        Op::Jmp(mode) => Ok(jmp(mode, start, regs)),
        Op::Scc(condition, mode) => scc(condition, mode, start, context, regs, progress),
        Op::Dbcc(condition, number, by) => Ok(dbcc(condition, number, by, start, regs)),
        Op::Bra(displacement) => Ok(bra(displacement, start, regs)),
        Op::Bsr(displacement) => bsr(displacement, start, context, regs, progress),
        Op::Bcc(condition, displacement) => Ok(bcc(condition, displacement, start, regs)),
        _ => unreachable!(),
    }
}

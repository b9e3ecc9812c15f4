ghost use Rattle.std.specs.Prelude.{◌≡◌, ◌+◌, ◌≤◌};
ghost use Rattle.arrayvec.specs.ArrayVec.{array_vec_len};
ghost use Rattle.m68k_decode.specs.Ops.{IsOp};
ghost use Rattle.m68k_access.specs.Clauses.{Ends, done_of, memory_of};
ghost use Rattle.m68k_exec.specs.Sample.Execution as execution;
ghost use Rattle.m68k_exec.specs.Sample.Groups.{IsControl};

use crate::rows::control::{illegal, line_a_opcode, line_f_opcode, rte, rtr, trap, trapv};
use crate::rows::status::{
    move_from_sr, move_from_usp, move_to_ccr, move_to_sr, move_to_usp, reset, stop,
};
use crate::{Context, Outcome, Progress, Stop};
use m68k_decode::Op;
use md_word::Regs;

/// Instructions on the status register and the user stack pointer, those that end in an exception, and returns from one.
#[inline(never)]
pub fn control(
    op: &Op,
    start: u32,
    context: &Context,
    regs: &mut Regs,
    progress: &mut Progress,
) -> Result<Outcome, Stop>
    requires group { IsControl op.now }
    requires operands { IsOp op.now }
    requires fresh { array_vec_len progress.old.writes ≡ 0 }
    ensures value { Ends result regs.new (done_of progress.new) (execution.row op.now start regs.old (memory_of context.now) (done_of progress.old)) }
    ensures written { array_vec_len progress.new.writes ≤ array_vec_len progress.old.writes + 64 }
{
    match *op {
        Op::MoveFromSr(mode) => move_from_sr(mode, start, context, regs, progress),
        Op::MoveToCcr(mode) => move_to_ccr(mode, start, context, regs, progress),
        Op::MoveToSr(mode) => move_to_sr(mode, start, context, regs, progress),
        Op::Trap(number) => Ok(trap(number, regs)),
        Op::MoveToUsp(number) => Ok(move_to_usp(number, start, regs)),
        Op::MoveFromUsp(number) => Ok(move_from_usp(number, start, regs)),
        Op::Reset => Ok(reset(start, regs)),
        Op::Stop(value) => Ok(stop(value, start, regs)),
        Op::Rte => rte(start, context, regs, progress),
        Op::Trapv => Ok(trapv(regs)),
        Op::Rtr => rtr(context, regs, progress),
        Op::Illegal(_) => Ok(illegal(start, regs)),
        Op::LineA(_) => Ok(line_a_opcode(start, regs)),
        Op::LineF(_) => Ok(line_f_opcode(start, regs)),
        _ => unreachable!(),
    }
}

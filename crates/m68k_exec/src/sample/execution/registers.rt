ghost use Rattle.std.specs.Prelude.{◌≡◌, ◌+◌, ◌≤◌};
ghost use Rattle.arrayvec.specs.ArrayVec.{array_vec_len};
ghost use Rattle.m68k_decode.specs.Ops.{IsOp};
ghost use Rattle.m68k_access.specs.Clauses.{Ends, done_of, memory_of};
ghost use Rattle.m68k_exec.specs.Sample.Execution as execution;
ghost use Rattle.m68k_exec.specs.Sample.Groups.{IsOnRegister};

use crate::rows::arithmetic::shift_memory;
use crate::rows::registers::exg;
use crate::rows::shifts::{shift_by_number, shift_by_register};
use crate::rows::single::{ext, swap};
use crate::{Context, Outcome, Progress, Stop};
use m68k_decode::Op;
use md_word::Regs;

/// Instructions on registers alone, and shifts.
#[inline(never)]
pub fn registers(
    op: &Op,
    start: u32,
    context: &Context,
    regs: &mut Regs,
    progress: &mut Progress,
) -> Result<Outcome, Stop>
    requires group { IsOnRegister op.now }
    requires operands { IsOp op.now }
    requires fresh { array_vec_len progress.old.writes ≡ 0 }
    ensures value { Ends result regs.new (done_of progress.new) (execution.row op.now start regs.old (memory_of context.now) (done_of progress.old)) }
    ensures written { array_vec_len progress.new.writes ≤ array_vec_len progress.old.writes + 64 }
{
    match *op {
        Op::Swap(number) => Ok(swap(number, regs)),
        Op::Ext(size, number) => Ok(ext(size, number, regs)),
        Op::Exg(first, second) => Ok(exg(first, second, regs)),
        Op::ShiftByNumber(task, size, count, number) => {
            Ok(shift_by_number(task, size, count, number, regs))
        }
        Op::ShiftByRegister(task, size, first, second) => {
            Ok(shift_by_register(task, size, first, second, regs))
        }
        Op::ShiftMemory(task, mode) => shift_memory(task, mode, start, context, regs, progress),
        _ => unreachable!(),
    }
}

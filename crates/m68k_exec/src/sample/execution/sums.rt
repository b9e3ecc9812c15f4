ghost use Rattle.std.specs.Prelude.{◌≡◌, ◌+◌, ◌≤◌};
ghost use Rattle.arrayvec.specs.ArrayVec.{array_vec_len};
ghost use Rattle.m68k_decode.specs.Ops.{IsOp};
ghost use Rattle.m68k_access.specs.Clauses.{Ends, done_of, memory_of};
ghost use Rattle.m68k_exec.specs.Sample.Execution as execution;
ghost use Rattle.m68k_exec.specs.Sample.Groups.{IsSum};

use crate::rows::arithmetic::{eor, quick, to_address, to_memory, to_register};
use crate::rows::comparisons::{cmp, cmpa, cmpm};
use crate::{Context, Outcome, Progress, Stop};
use m68k_decode::Op;
use md_word::Regs;

/// Sums, differences, comparisons and logical operations with a register.
#[inline(never)]
pub fn sums(
    op: &Op,
    start: u32,
    context: &Context,
    regs: &mut Regs,
    progress: &mut Progress,
) -> Result<Outcome, Stop>
    requires group { IsSum op.now }
    requires operands { IsOp op.now }
    requires fresh { array_vec_len progress.old.writes ≡ 0 }
    ensures value { Ends result regs.new (done_of progress.new) (execution.row op.now start regs.old (memory_of context.now) (done_of progress.old)) }
    ensures written { array_vec_len progress.new.writes ≤ array_vec_len progress.old.writes + 64 }
{
    match *op {
        Op::Quick(task, size, number, mode) => {
            quick(task, size, number, mode, start, context, regs, progress)
        }
        Op::ToRegister(task, size, number, mode) => {
            to_register(task, size, number, mode, start, context, regs, progress)
        }
        Op::ToMemory(task, size, number, mode) => {
            to_memory(task, size, number, mode, start, context, regs, progress)
        }
        Op::ToAddress(task, size, number, mode) => {
            to_address(task, size, number, mode, start, context, regs, progress)
        }
        Op::Cmp(size, number, mode) => cmp(size, number, mode, start, context, regs, progress),
        Op::Cmpa(size, number, mode) => cmpa(size, number, mode, start, context, regs, progress),
        Op::Eor(size, number, mode) => eor(size, number, mode, start, context, regs, progress),
        Op::Cmpm(size, x, y) => cmpm(size, x, y, start, context, regs, progress),
        _ => unreachable!(),
    }
}

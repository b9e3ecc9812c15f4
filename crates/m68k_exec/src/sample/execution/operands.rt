ghost use Rattle.std.specs.Prelude.{◌≡◌, ◌+◌, ◌≤◌};
ghost use Rattle.arrayvec.specs.ArrayVec.{array_vec_len};
ghost use Rattle.m68k_decode.specs.Ops.{IsOp};
ghost use Rattle.m68k_access.specs.Clauses.{Ends, done_of, memory_of};
ghost use Rattle.m68k_exec.specs.Sample.Execution as execution;
ghost use Rattle.m68k_exec.specs.Sample.Groups.{IsOnOperand};

use crate::rows::links::{link, pea, unlk};
use crate::rows::movem::{movem_to_memory, movem_to_registers};
use crate::rows::single::{nbcd, tas, tst, unary};
use crate::{Context, Outcome, Progress, Stop};
use m68k_decode::Op;
use md_word::Regs;

/// Instructions on one operand, and those that move registers to a stack.
#[inline(never)]
pub fn operands(
    op: &Op,
    start: u32,
    context: &Context,
    regs: &mut Regs,
    progress: &mut Progress,
) -> Result<Outcome, Stop>
    requires group { IsOnOperand op.now }
    requires operands { IsOp op.now }
    requires fresh { array_vec_len progress.old.writes ≡ 0 }
    ensures value { Ends result regs.new (done_of progress.new) (execution.row op.now start regs.old (memory_of context.now) (done_of progress.old)) }
    ensures written { array_vec_len progress.new.writes ≤ array_vec_len progress.old.writes + 64 }
{
    match *op {
        Op::Unary(task, size, mode) => unary(task, size, mode, start, context, regs, progress),
        Op::Nbcd(mode) => nbcd(mode, start, context, regs, progress),
        Op::Pea(mode) => pea(mode, start, context, regs, progress),
        Op::MovemToMemory(size, list, mode) => {
            movem_to_memory(size, list, mode, start, context, regs, progress)
        }
        Op::MovemToRegisters(size, list, mode) => {
            movem_to_registers(size, list, mode, start, context, regs, progress)
        }
        Op::Tst(size, mode) => tst(size, mode, start, context, regs, progress),
        Op::Tas(mode) => tas(mode, start, context, regs, progress),
        Op::Link(number, by) => link(number, by, context, regs, progress),
        Op::Unlk(number) => unlk(number, context, regs, progress),
        _ => unreachable!(),
    }
}

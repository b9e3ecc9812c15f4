ghost use Rattle.std.specs.Prelude.{◌≡◌, ◌+◌, ◌≤◌};
ghost use Rattle.arrayvec.specs.ArrayVec.{array_vec_len};
ghost use Rattle.m68k_decode.specs.Ops.{IsOp};
ghost use Rattle.m68k_access.specs.Clauses.{Ends, done_of, memory_of};
ghost use Rattle.m68k_exec.specs.Sample.Execution as execution;
ghost use Rattle.m68k_exec.specs.Sample.Groups.{IsOfNumber};

use crate::rows::bits::{bit_by_number, bit_by_register};
use crate::rows::immediates::{compare_immediate, immediate, immediate_to_ccr, immediate_to_sr};
use crate::rows::movep::{movep_to_memory, movep_to_register};
use crate::{Context, Outcome, Progress, Stop};
use m68k_decode::Op;
use md_word::Regs;

/// Instructions with a number after the opcode, those on a bit, and MOVEP: the first digit is 0.
#[inline(never)]
pub fn numbers(
    op: &Op,
    start: u32,
    context: &Context,
    regs: &mut Regs,
    progress: &mut Progress,
) -> Result<Outcome, Stop>
    requires group { IsOfNumber op.now }
    requires operands { IsOp op.now }
    requires fresh { array_vec_len progress.old.writes ≡ 0 }
    ensures value { Ends result regs.new (done_of progress.new) (execution.row op.now start regs.old (memory_of context.now) (done_of progress.old)) }
    ensures written { array_vec_len progress.new.writes ≤ array_vec_len progress.old.writes + 64 }
{
    match *op {
        Op::Immediate(task, size, number, mode) => {
            immediate(task, size, number, mode, start, context, regs, progress)
        }
        Op::CompareImmediate(size, number, mode) => {
            compare_immediate(size, number, mode, start, context, regs, progress)
        }
        Op::ImmediateToCcr(task, number) => Ok(immediate_to_ccr(task, number, regs)),
        Op::ImmediateToSr(task, number) => Ok(immediate_to_sr(task, number, start, regs)),
        Op::BitByRegister(task, number, mode) => {
            bit_by_register(task, number, mode, start, context, regs, progress)
        }
        Op::BitByNumber(task, number, mode) => {
            bit_by_number(task, number, mode, start, context, regs, progress)
        }
        Op::MovepToRegister(size, x, y, by) => {
            movep_to_register(size, x, y, by, start, context, regs, progress)
        }
        Op::MovepToMemory(size, x, y, by) => {
            movep_to_memory(size, x, y, by, start, context, regs, progress)
        }
        _ => unreachable!(),
    }
}

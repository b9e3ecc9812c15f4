ghost use Rattle.std.specs.Prelude.{◌≡◌, ◌+◌, ◌≤◌, false};
ghost use Rattle.arrayvec.specs.ArrayVec.{array_vec_len};
ghost use Rattle.m68k_decode.specs.Ops.{IsOp};
ghost use Rattle.m68k_access.specs.Clauses.{Ends, done_of, memory_of};
ghost use Rattle.m68k_exec.specs.Sample.Execution as execution;
ghost use Rattle.m68k_exec.specs.Sample.Prediction.{Predicts};
ghost use Rattle.m68k_exec.specs.Sample.Groups.{IsMove};

use crate::rows::links::lea;
use crate::rows::moves::{move_address, move_operand};
use crate::rows::registers::moveq;
use crate::{Context, Outcome, Predicted, Progress, Stop};
use m68k_decode::Op;
use md_word::Regs;

/// Moves of an operand, of a small number and of an address.
#[inline(never)]
#[tactic(auto, using(crate::proofs::Prediction::nothing_predicted))]
pub fn moves(
    op: &Op,
    start: u32,
    context: &Context,
    regs: &mut Regs,
    progress: &mut Progress,
    predicted: &mut Predicted,
) -> Result<Outcome, Stop>
    requires group { IsMove op.now }
    requires operands { IsOp op.now }
    requires fresh { array_vec_len progress.old.writes ≡ 0 }
    requires nothing { predicted.old.known ≡ false }
    ensures value { Ends result regs.new (done_of progress.new) (execution.row op.now start regs.old (memory_of context.now) (done_of progress.old)) }
    ensures written { array_vec_len progress.new.writes ≤ array_vec_len progress.old.writes + 64 }
    ensures predicted { Predicts result predicted.new (execution.row op.now start regs.old) (memory_of context.now) (done_of progress.old) }
{
    match *op {
        Op::Move(size, source, target) => {
            move_operand(
                size, source, target, start, context, regs, progress, predicted,
            )
        }
        Op::Movea(size, number, mode) => {
            move_address(size, number, mode, start, context, regs, progress)
        }
        Op::Moveq(number, byte) => Ok(moveq(number, byte, regs)),
        Op::Lea(number, mode) => Ok(lea(number, mode, start, regs)),
        _ => unreachable!(),
    }
}

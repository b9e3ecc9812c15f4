ghost use Rattle.std.specs.Prelude.{◌≡◌, ◌+◌, ◌≤◌, false};
ghost use Rattle.arrayvec.specs.ArrayVec.{array_vec_len};
ghost use Rattle.m68k_decode.specs.Ops.{IsOp};
ghost use Rattle.m68k_access.specs.Clauses.{Ends, done_of, memory_of};
ghost use Rattle.m68k_exec.specs.Sample.Execution as execution;
ghost use Rattle.m68k_exec.specs.Sample.Prediction.{Predicts};

mod control;
mod jumps;
mod moves;
mod numbers;
mod operands;
mod products;
mod registers;
mod sums;

use crate::{Context, Outcome, Predicted, Progress, Stop};
use control::control;
use jumps::jumps;
use m68k_decode::Op;
use md_word::Regs;
use moves::moves;
use numbers::numbers;
use operands::operands;
use products::products;
use registers::registers;
use sums::sums;

/// Carries out an instruction that is at `start`. On entry the program counter is after it. Stops where an access
/// waits for its answer, or where a word or long has an odd address.
///
/// One that ends in an exception makes four accesses at most before it. Each group of instructions has
/// a function, since all locals of a function are set to 0 at its start.
#[inline(always)]
#[tactic(auto, using(crate::proofs::Prediction::nothing_predicted))]
pub fn execute(
    op: &Op,
    start: u32,
    context: &Context,
    regs: &mut Regs,
    progress: &mut Progress,
    predicted: &mut Predicted,
) -> Result<Outcome, Stop>
    requires operands { IsOp op.now }
    requires fresh { array_vec_len progress.old.writes ≡ 0 }
    requires nothing { predicted.old.known ≡ false }
    ensures value { Ends result regs.new (done_of progress.new) (execution.row op.now start regs.old (memory_of context.now) (done_of progress.old)) }
    ensures written { array_vec_len progress.new.writes ≤ array_vec_len progress.old.writes + 64 }
    ensures predicted { Predicts result predicted.new (execution.row op.now start regs.old) (memory_of context.now) (done_of progress.old) }
{
    match *op {
        Op::Immediate(..)
        | Op::CompareImmediate(..)
        | Op::ImmediateToCcr(..)
        | Op::ImmediateToSr(..)
        | Op::BitByRegister(..)
        | Op::BitByNumber(..)
        | Op::MovepToRegister(..)
        | Op::MovepToMemory(..) => numbers(op, start, context, regs, progress),
        Op::Move(..) | Op::Movea(..) | Op::Moveq(..) | Op::Lea(..) => moves(
            op, start, context, regs, progress, predicted,
        ),
        Op::Quick(..)
        | Op::ToRegister(..)
        | Op::ToMemory(..)
        | Op::ToAddress(..)
        | Op::Cmp(..)
        | Op::Cmpa(..)
        | Op::Eor(..)
        | Op::Cmpm(..) => sums(op, start, context, regs, progress),
        Op::Nop
        | Op::Rts
        | Op::Jsr(..)
        | Op::Jmp(..)
        | Op::Scc(..)
        | Op::Dbcc(..)
        | Op::Bra(..)
        | Op::Bsr(..)
        | Op::Bcc(..) => jumps(op, start, context, regs, progress),
        Op::Unary(..)
        | Op::Nbcd(..)
        | Op::Pea(..)
        | Op::MovemToMemory(..)
        | Op::MovemToRegisters(..)
        | Op::Tst(..)
        | Op::Tas(..)
        | Op::Link(..)
        | Op::Unlk(..) => operands(op, start, context, regs, progress),
        Op::Chk(..)
        | Op::Divu(..)
        | Op::Divs(..)
        | Op::Decimal(..)
        | Op::Extended(..)
        | Op::Mulu(..)
        | Op::Muls(..) => products(op, start, context, regs, progress),
        Op::Swap(..)
        | Op::Ext(..)
        | Op::Exg(..)
        | Op::ShiftByNumber(..)
        | Op::ShiftByRegister(..)
        | Op::ShiftMemory(..) => registers(op, start, context, regs, progress),
        Op::MoveFromSr(..)
        | Op::MoveToCcr(..)
        | Op::MoveToSr(..)
        | Op::Trap(..)
        | Op::MoveToUsp(..)
        | Op::MoveFromUsp(..)
        | Op::Reset
        | Op::Stop(..)
        | Op::Rte
        | Op::Trapv
        | Op::Rtr
        | Op::Illegal(..)
        | Op::LineA(..)
        | Op::LineF(..) => control(op, start, context, regs, progress),
    }
}

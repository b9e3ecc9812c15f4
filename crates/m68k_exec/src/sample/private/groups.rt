//! Groups of instructions that make no shared access and write nothing. Each has a function, since all locals of a
//! function are set to 0 at its start.
ghost use Rattle.std.specs.Prelude.{◌≡◌, ◌<◌};
ghost use Rattle.m68k_decode.specs.Ops.{IsOp};
ghost use Rattle.m68k_time.specs.Clocks.{clocks_of};
ghost use Rattle.m68k_access.specs.Clauses.{memory_of};
ghost use Rattle.m68k_access.specs.Memory.{Memory};
ghost use Rattle.m68k_exec.specs.Sample.Caches.{unspent};
ghost use Rattle.m68k_exec.specs.Sample.Execution as execution;
ghost use Rattle.m68k_exec.specs.Sample.Private.{CarriesOut, Changes};
ghost use Rattle.m68k_exec.specs.Sample.Samples.{nothing};

use super::bits::{bit_by_number, bit_by_register};
use super::rows::{
    cmp, cmpa, compare_immediate, immediate, move_address, move_to_data, quick, to_address,
    to_register, tst, unary,
};
use crate::Context;
use crate::rows::branches::{bcc, bra, dbcc};
use crate::rows::control::jmp;
use crate::rows::links::lea;
use crate::rows::registers::{exg, moveq};
use crate::rows::shifts::{shift_by_number, shift_by_register};
use crate::rows::single::{ext, swap};
use m68k_decode::Op;
use md_word::{Mode, Regs};

/// The clocks of Bcc and DBcc where the branch is taken, and of DBcc where its counter expires.
const TAKEN: u32 = 10;

const EXPIRED: u32 = 14;

/// Carries out a branch or a jump, or answers None. On entry the program counter is after it, and `clocks` is
/// what it takes where no branch is taken. Answers the clocks that it took.
#[inline(never)]
pub fn branch(op: &Op, clocks: u32, start: u32, regs: &mut Regs) -> Option<u32>
    requires operands { IsOp op.now }
    requires clocks { clocks ≡ clocks_of op.now unspent }
    ensures { (memory : Memory) → CarriesOut result op.now (execution.row op.now start regs.old) regs.old regs.new memory nothing }
{
    match *op {
        Op::Nop => Some(clocks),
        Op::Jmp(mode) => {
            let _outcome = jmp(mode, start, regs);
            Some(clocks)
        }
        Op::Bra(displacement) => {
            let _outcome = bra(displacement, start, regs);
            Some(clocks)
        }
        Op::Bcc(condition, displacement) => {
            let outcome = bcc(condition, displacement, start, regs);
            Some(if outcome.taken { TAKEN } else { clocks })
        }
        Op::Dbcc(condition, number, by) => {
            let outcome = dbcc(condition, number, by, start, regs);
            Some(if outcome.expired {
                EXPIRED
            } else if outcome.taken {
                TAKEN
            } else {
                clocks
            })
        }
        _ => None,
    }
}

/// Carries out MOVE to a data register, MOVEA, MOVEQ, LEA or TST; answers whether it did.
#[inline(never)]
pub fn moves(op: &Op, start: u32, context: &Context, regs: &mut Regs) -> bool
    requires operands { IsOp op.now }
    ensures { Changes result (execution.row op.now start regs.old) regs.old regs.new (memory_of context.now) }
{
    match *op {
        Op::Move(size, source, Mode::Data(number)) => {
            move_to_data(size, source, number, start, context, regs)
        }
        Op::Movea(size, number, mode) => move_address(size, number, mode, start, context, regs),
        Op::Moveq(number, byte) => {
            let _outcome = moveq(number, byte, regs);
            true
        }
        Op::Lea(number, mode) => {
            let _outcome = lea(number, mode, start, regs);
            true
        }
        Op::Tst(size, mode) => tst(size, mode, start, context, regs),
        _ => false,
    }
}

/// Carries out a sum, a difference, a comparison or a logical operation with a register, or CMPI; answers whether it
/// did.
#[inline(never)]
pub fn sums(op: &Op, start: u32, context: &Context, regs: &mut Regs) -> bool
    requires operands { IsOp op.now }
    ensures { Changes result (execution.row op.now start regs.old) regs.old regs.new (memory_of context.now) }
{
    match *op {
        Op::ToRegister(task, size, number, mode) => {
            to_register(task, size, number, mode, start, context, regs)
        }
        Op::ToAddress(task, size, number, mode) => {
            to_address(task, size, number, mode, start, context, regs)
        }
        Op::Cmp(size, number, mode) => cmp(size, number, mode, start, context, regs),
        Op::Cmpa(size, number, mode) => cmpa(size, number, mode, start, context, regs),
        Op::CompareImmediate(size, number, mode) => {
            compare_immediate(size, number, mode, start, context, regs)
        }
        _ => false,
    }
}

/// Carries out BTST; answers whether it did.
#[inline(never)]
pub fn bits(op: &Op, start: u32, context: &Context, regs: &mut Regs) -> bool
    requires operands { IsOp op.now }
    ensures { Changes result (execution.row op.now start regs.old) regs.old regs.new (memory_of context.now) }
{
    match *op {
        Op::BitByRegister(task, number, mode) => {
            bit_by_register(task, number, mode, start, context, regs)
        }
        Op::BitByNumber(task, number, mode) => {
            bit_by_number(task, number, mode, start, context, regs)
        }
        _ => false,
    }
}

/// Carries out an operation on a data register with a number or with nothing else, ADDQ or SUBQ of an address
/// register, SWAP, EXT or EXG; answers whether it did.
#[inline(never)]
pub fn registers(op: &Op, start: u32, regs: &mut Regs) -> bool
    requires operands { IsOp op.now }
    ensures { (memory : Memory) → Changes result (execution.row op.now start regs.old) regs.old regs.new memory }
{
    match *op {
        Op::Quick(task, size, value, mode) => quick(task, size, value, mode, start, regs),
        Op::Immediate(task, size, value, mode) => immediate(task, size, value, mode, start, regs),
        Op::Unary(task, size, mode) => unary(task, size, mode, start, regs),
        Op::Swap(number) => {
            let _outcome = swap(number, regs);
            true
        }
        Op::Ext(size, number) => {
            let _outcome = ext(size, number, regs);
            true
        }
        Op::Exg(first, second) => {
            let _outcome = exg(first, second, regs);
            true
        }
        _ => false,
    }
}

/// Carries out a shift of a data register, or answers None. `clocks` is what it takes by no place. Answers the clocks
/// that it took.
#[inline(never)]
pub fn shift(op: &Op, clocks: u32, start: u32, regs: &mut Regs) -> Option<u32>
    requires operands { IsOp op.now }
    requires clocks { clocks ≡ clocks_of op.now unspent }
    requires few { clocks < 256 }
    ensures { (memory : Memory) → CarriesOut result op.now (execution.row op.now start regs.old) regs.old regs.new memory nothing }
{
    match *op {
        Op::ShiftByNumber(task, size, count, number) => {
            let outcome = shift_by_number(task, size, count, number, regs);
            Some(clocks + 2 * u32::from(outcome.count))
        }
        Op::ShiftByRegister(task, size, first, second) => {
            let outcome = shift_by_register(task, size, first, second, regs);
            Some(clocks + 2 * u32::from(outcome.count))
        }
        _ => None,
    }
}

//! Rows that write work RAM. Each answers whether it was carried out; else the registers stay, and what progress has
//! means nothing.
ghost use Rattle.std.specs.Prelude.{◌≡◌, ◌<◌, ◌≤◌, false};
ghost use Rattle.md_word.specs.Modes.{IsMode};
ghost use Rattle.md_word.specs.Width.{modulus_of};
ghost use Rattle.md_word.specs.declared.size.Size.TheVariants.{Long};
ghost use Rattle.m68k_decode.specs.Ops.{IsOp};
ghost use Rattle.m68k_time.specs.Clocks.{clocks_of};
ghost use Rattle.m68k_access.specs.Clauses.{done_of, memory_of};
ghost use Rattle.m68k_access.specs.Operands as operands;
ghost use Rattle.m68k_access.specs.Shapes as shapes;
ghost use Rattle.m68k_exec.specs.Rows.Arithmetic as arithmetic;
ghost use Rattle.m68k_exec.specs.Rows.Moves as moves;
ghost use Rattle.m68k_exec.specs.Sample.Caches.{unspent};
ghost use Rattle.m68k_exec.specs.Sample.Execution as execution;
ghost use Rattle.m68k_exec.specs.Sample.Private.{CarriesOut, Finds, Moves, Puts, Stores};
ghost use Rattle.m68k_exec.specs.Sample.Samples.{nothing};

use super::operands::{operand, private};
use crate::rows::branches::bra;
use crate::rows::immediates::after_number;
use crate::rows::moves::{after_source, store_last};
use crate::{Context, Predicted, Progress, Stop};
use m68k_access::accesses::write;
use m68k_access::operands::{effective, locate, step};
use m68k_alu::compute;
use m68k_decode::Op;
use m68k_ea::Place;
use md_word::{Mode, Regs, Request68, Size, Task};

/// The number of the active stack pointer, A7.
const STACK: u8 = 7;

/// MOVE, with a source that is not shared: to its end, or to the shared write that waits, with the registers after
/// that predicted where it is the last. Else None, and the registers mean nothing.
#[inline(always)]
#[tactic(auto, unfolding(crate::specs::Rows::Moves::move_operand))]
pub fn move_operand(
    size: Size,
    source: Mode,
    target: Mode,
    start: u32,
    context: &Context,
    regs: &mut Regs,
    progress: &mut Progress,
    predicted: &mut Predicted,
) -> Option<Result<(), Request68>>
    requires source { IsMode source }
    requires target { IsMode target }
    requires fresh { done_of progress.old ≡ nothing }
    requires nothing { predicted.old.known ≡ false }
    ensures { Moves result predicted.new (moves.move_operand size source target start regs.old) regs.new (memory_of context.now) (done_of progress.new) }
{
    let flags = regs.flags();
    match operand(source, size, start.wrapping_add(2), context, regs) {
        Some(from) => {
            let out = compute(Task::Move, size, from, from, flags);
            let pc = after_source(size, source, start);
            match store_last(
                target, size, out.value, out.flags, pc, context, regs, progress, predicted,
            ) {
                Ok(()) => {
                    regs.set_flags(out.flags);
                    Some(Ok(()))
                }
                Err(Stop::Ask(request)) => Some(Err(request)),
                Err(Stop::Odd { .. }) => None,
            }
        }
        None => None,
    }
}

/// Reads an operand in memory, does the operation, and writes the result there.
#[inline(never)]
#[tactic(auto, unfolding(m68k_access::specs::Shapes::change_operand, m68k_access::specs::Operands::fetch, m68k_access::specs::Operands::put, m68k_access::specs::Operands::stored))]
fn change_in_memory(
    task: Task,
    size: Size,
    number: u32,
    mode: Mode,
    pc: u32,
    context: &Context,
    regs: &mut Regs,
    progress: &mut Progress,
) -> bool
    requires mode { IsMode mode }
    requires number { number < modulus_of size }
    requires fresh { done_of progress.old ≡ nothing }
    ensures { Stores result (shapes.change_operand task size number mode pc regs.old) regs.old regs.new (memory_of context.now) (done_of progress.new) }
{
    let flags = regs.flags();
    match locate(mode, size, pc, regs) {
        Place::Memory(address) => match private(size, address, context) {
            Some(old) => {
                let out = compute(task, size, number, old, flags);
                match write(size, address, out.value, context, progress) {
                    Ok(()) => {
                        step(mode, size, regs);
                        regs.set_flags(out.flags);
                        true
                    }
                    Err(_) => false,
                }
            }
            None => false,
        },
        _ => false,
    }
}

/// ADDQ, SUBQ of an operand in memory.
#[inline(always)]
fn quick(
    task: Task,
    size: Size,
    value: u8,
    mode: Mode,
    start: u32,
    context: &Context,
    regs: &mut Regs,
    progress: &mut Progress,
) -> bool
    requires value { value ≤ 8 }
    requires mode { IsMode mode }
    requires fresh { done_of progress.old ≡ nothing }
    ensures { Stores result (arithmetic.quick task size value mode start regs.old) regs.old regs.new (memory_of context.now) (done_of progress.new) }
{
    let value = u32::from(value);
    let pc = start.wrapping_add(2);
    match mode {
        Mode::Address(_) => false,
        _ => change_in_memory(task, size, value, mode, pc, context, regs, progress),
    }
}

/// Carries out an instruction that writes its result into work RAM; answers whether it did.
#[inline(never)]
#[tactic(auto, unfolding(crate::specs::Rows::Arithmetic::to_memory, crate::specs::Rows::Immediates::immediate, crate::specs::Rows::Single::unary))]
pub fn stores(
    op: &Op,
    start: u32,
    context: &Context,
    regs: &mut Regs,
    progress: &mut Progress,
) -> bool
    requires operands { IsOp op.now }
    requires fresh { done_of progress.old ≡ nothing }
    ensures { Stores result (execution.row op.now start regs.old) regs.old regs.new (memory_of context.now) (done_of progress.new) }
{
    let pc = start.wrapping_add(2);
    match *op {
        Op::Quick(task, size, value, mode) => {
            quick(task, size, value, mode, start, context, regs, progress)
        }
        Op::ToMemory(task, size, number, mode) => {
            let source = size.low(regs.register(number));
            change_in_memory(task, size, source, mode, pc, context, regs, progress)
        }
        Op::Immediate(task, size, number, mode) => {
            let after = after_number(size, start);
            change_in_memory(task, size, number, mode, after, context, regs, progress)
        }
        Op::Unary(task, size, mode) => {
            change_in_memory(task, size, 0, mode, pc, context, regs, progress)
        }
        _ => false,
    }
}

/// Pushes a long on the active stack; answers whether it did.
#[inline(always)]
#[tactic(auto, unfolding(m68k_access::specs::Operands::push))]
fn push_long(value: u32, context: &Context, regs: &mut Regs, progress: &mut Progress) -> bool
    requires fresh { done_of progress.old ≡ nothing }
    ensures { Puts result (operands.push Long value regs.old) regs.old regs.new (memory_of context.now) (done_of progress.new) }
{
    let to = regs.address(STACK).wrapping_sub(4);
    match write(Size::Long, to, value, context, progress) {
        Ok(()) => {
            regs.set_address(STACK, to);
            true
        }
        Err(_) => false,
    }
}

/// Pulls a long from the active stack, where it lies in the cartridge or in work RAM; else None.
#[inline(always)]
#[tactic(auto, unfolding(m68k_access::specs::Operands::pull))]
fn pull_long(context: &Context, regs: &mut Regs) -> Option<u32>
    ensures { Finds result (operands.pull Long regs.old) regs.old regs.new (memory_of context.now) }
{
    let stack = regs.address(STACK);
    if stack % 2 == 1 {
        return None;
    }
    match private(Size::Long, stack, context) {
        Some(value) => {
            regs.set_address(STACK, stack.wrapping_add(4));
            Some(value)
        }
        None => None,
    }
}

/// Carries out BSR, JSR or RTS with its stack in work RAM, or answers None. Answers its clocks.
#[inline(never)]
pub fn call(
    op: &Op,
    clocks: u32,
    start: u32,
    context: &Context,
    regs: &mut Regs,
    progress: &mut Progress,
) -> Option<u32>
    requires operands { IsOp op.now }
    requires clocks { clocks ≡ clocks_of op.now unspent }
    requires fresh { done_of progress.old ≡ nothing }
    ensures { CarriesOut result op.now (execution.row op.now start regs.old) regs.old regs.new (memory_of context.now) (done_of progress.new) }
{
    match *op {
        Op::Bsr(displacement) => {
            if !push_long(regs.pc, context, regs, progress) {
                return None;
            }
            let _outcome = bra(displacement, start, regs);
            Some(clocks)
        }
        Op::Jsr(mode) => {
            let target = effective(mode, Size::Long, start.wrapping_add(2), regs);
            if !push_long(regs.pc, context, regs, progress) {
                return None;
            }
            regs.pc = target;
            Some(clocks)
        }
        Op::Rts => match pull_long(context, regs) {
            Some(target) => {
                regs.pc = target;
                Some(clocks)
            }
            None => None,
        },
        _ => None,
    }
}

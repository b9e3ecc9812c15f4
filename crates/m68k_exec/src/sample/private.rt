//! Instructions that make no shared access and end in no exception, carried out at once.
ghost use Rattle.std.specs.Prelude.{◌≡◌, ◌%◌, ◌<◌, [], false};
ghost use Rattle.md_word.specs.Modes.{IsMode};
ghost use Rattle.m68k_decode.specs.Ops.{IsInstruction, IsOp};
ghost use Rattle.m68k_decode.specs.declared.op.Op.TheVariants.{Move};
ghost use Rattle.m68k_time.specs.Clocks.{clocks_of};
ghost use Rattle.m68k_access.specs.Clauses.{done_of, memory_of};
ghost use Rattle.m68k_exec.specs.Sample.Caches.{IsCacheOf, unspent};
ghost use Rattle.m68k_exec.specs.Sample.Execution as execution;
ghost use Rattle.m68k_exec.specs.Sample.Private.{CarriesOut, RunsPrivately, took};
ghost use Rattle.m68k_exec.specs.Sample.Samples as samples;
ghost use Rattle.m68k_exec.specs.Sample.Samples.{nothing};
ghost use Rattle.m68k_exec.specs.declared.sample.step.Predicted.{Predicted};

mod bits;
mod groups;
mod operands;
mod rows;
mod stores;

use super::cache::{CachedInstruction, DecodeCache};
use super::ends::{leaves_trace, predict_finish};
use crate::{Context, Predicted, PrivateStep, Progress};
use groups::{bits, branch, moves, registers, shift, sums};
use m68k_access::memory::RAM_SIZE;
use m68k_decode::Op;
use md_word::{Mode, Regs, Size};
use rom_header::Cart;
use stores::{call, move_operand, stores};

/// The clocks of an instruction that was carried out.
#[inline(always)]
fn taking(clocks: u32, done: bool) -> Option<u32>
    ensures { result ≡ took clocks done }
{
    if done { Some(clocks) } else { None }
}

/// Carries out an instruction that makes no shared access, or answers None. On entry the program counter is after
/// it, and `clocks` is what it takes where no branch is taken and nothing is counted. Answers the clocks that it took.
#[inline(always)]
fn execute(op: &Op, clocks: u32, start: u32, context: &Context, regs: &mut Regs) -> Option<u32>
    requires operands { IsOp op.now }
    requires clocks { clocks ≡ clocks_of op.now unspent }
    requires few { clocks < 256 }
    ensures { CarriesOut result op.now (execution.row op.now start regs.old) regs.old regs.new (memory_of context.now) nothing }
{
    match op {
        Op::Nop | Op::Jmp(..) | Op::Bra(..) | Op::Bcc(..) | Op::Dbcc(..) => {
            branch(op, clocks, start, regs)
        }
        Op::Move(_, _, Mode::Data(_)) | Op::Movea(..) | Op::Moveq(..) | Op::Lea(..) | Op::Tst(..) =>
            taking(clocks, moves(op, start, context, regs)),
        Op::ToRegister(..)
        | Op::ToAddress(..)
        | Op::Cmp(..)
        | Op::Cmpa(..)
        | Op::CompareImmediate(..) => taking(clocks, sums(op, start, context, regs)),
        Op::Quick(..)
        | Op::Immediate(..)
        | Op::Unary(..)
        | Op::Swap(..)
        | Op::Ext(..)
        | Op::Exg(..) => taking(clocks, registers(op, start, regs)),
        Op::BitByRegister(..) | Op::BitByNumber(..) => {
            taking(clocks, bits(op, start, context, regs))
        }
        Op::ShiftByNumber(..) | Op::ShiftByRegister(..) => shift(op, clocks, start, regs),
        _ => None,
    }
}

/// Carries out an instruction that writes work RAM alone, or answers None. On entry the program counter is after it,
/// and `clocks` is what it takes. Answers its clocks; the bytes that it writes are in `progress`.
#[inline(always)]
fn execute_store(
    op: &Op,
    clocks: u32,
    start: u32,
    context: &Context,
    regs: &mut Regs,
    progress: &mut Progress,
) -> Option<u32>
    requires operands { IsOp op.now }
    requires clocks { clocks ≡ clocks_of op.now unspent }
    requires fresh { done_of progress.old ≡ nothing }
    requires alone { context.now.answers.now ≡ [] }
    ensures { CarriesOut result op.now (execution.row op.now start regs.old) regs.old regs.new (memory_of context.now) (done_of progress.new) }
{
    match op {
        Op::Bsr(..) | Op::Jsr(..) | Op::Rts => call(op, clocks, start, context, regs, progress),
        Op::Quick(..) | Op::ToMemory(..) | Op::Immediate(..) | Op::Unary(..) => taking(
            clocks,
            stores(op, start, context, regs, progress),
        ),
        _ => None,
    }
}

/// The instruction that was decoded at the program counter, where it makes no shared access; else the registers stay.
/// The bytes that it writes are in `progress`.
#[inline(always)]
fn run_at_once(
    found: &CachedInstruction,
    context: &Context,
    regs: &mut Regs,
    progress: &mut Progress,
) -> Option<PrivateStep>
    requires instruction { IsInstruction found.now.decoded }
    requires clocks { found.now.clocks ≡ clocks_of found.now.decoded.op unspent }
    requires even { regs.old.pc % 2 ≡ 0 }
    requires untraced { samples.leaves_trace regs.old 0 ≡ false }
    requires fresh { done_of progress.old ≡ nothing }
    requires alone { context.now.answers.now ≡ [] }
    ensures { (predicted : Predicted) → RunsPrivately result predicted (samples.instruction found.now.decoded found.now.first regs.old) regs.old regs.new progress.new.writes.items (memory_of context.now) }
{
    let start = regs.pc;
    let op = &found.decoded.op;
    let clocks = u32::from(found.clocks);
    regs.pc = start.wrapping_add(u32::from(found.decoded.length));
    match execute(op, clocks, start, context, regs) {
        Some(taken) => Some(PrivateStep::Done(taken)),
        None => match execute_store(op, clocks, start, context, regs, progress) {
            Some(taken) => Some(PrivateStep::Done(taken)),
            None => {
                regs.pc = start;
                None
            }
        },
    }
}

/// A MOVE that was decoded at the program counter, to its end or to the shared write that waits; else, and where it
/// waits, the registers stay. The bytes that it writes are in `progress`.
#[inline(never)]
fn run_move(
    found: &CachedInstruction,
    size: Size,
    source: Mode,
    target: Mode,
    context: &Context,
    regs: &mut Regs,
    progress: &mut Progress,
    predicted: &mut Predicted,
) -> Option<PrivateStep>
    requires is { found.now.decoded.op ≡ Move size source target }
    requires source { IsMode source }
    requires target { IsMode target }
    requires clocks { found.now.clocks ≡ clocks_of found.now.decoded.op unspent }
    requires even { regs.old.pc % 2 ≡ 0 }
    requires untraced { samples.leaves_trace regs.old 0 ≡ false }
    requires fresh { done_of progress.old ≡ nothing }
    requires alone { context.now.answers.now ≡ [] }
    requires nothing { predicted.old.known ≡ false }
    ensures { RunsPrivately result predicted.new (samples.instruction found.now.decoded found.now.first regs.old) regs.old regs.new progress.new.writes.items (memory_of context.now) }
{
    let before = *regs;
    let start = before.pc;
    regs.pc = start.wrapping_add(u32::from(found.decoded.length));
    match move_operand(
        size, source, target, start, context, regs, progress, predicted,
    ) {
        Some(Ok(())) => Some(PrivateStep::Done(u32::from(found.clocks))),
        Some(Err(request)) => {
            let clocks = u32::from(found.clocks);
            predict_finish(&found.decoded.op, clocks, &before, context, predicted);
            *regs = before;
            Some(PrivateStep::Need(request))
        }
        None => {
            *regs = before;
            None
        }
    }
}

/// The instruction that was decoded at the program counter, as far as it comes at once; else, and where it waits, the
/// registers stay. The bytes that it writes are in `progress`.
#[inline(always)]
fn run(
    found: &CachedInstruction,
    context: &Context,
    regs: &mut Regs,
    progress: &mut Progress,
    predicted: &mut Predicted,
) -> Option<PrivateStep>
    requires instruction { IsInstruction found.now.decoded }
    requires clocks { found.now.clocks ≡ clocks_of found.now.decoded.op unspent }
    requires even { regs.old.pc % 2 ≡ 0 }
    requires untraced { samples.leaves_trace regs.old 0 ≡ false }
    requires fresh { done_of progress.old ≡ nothing }
    requires alone { context.now.answers.now ≡ [] }
    requires nothing { predicted.old.known ≡ false }
    ensures { RunsPrivately result predicted.new (samples.instruction found.now.decoded found.now.first regs.old) regs.old regs.new progress.new.writes.items (memory_of context.now) }
{
    match found.decoded.op {
        Op::Move(_, _, Mode::Data(_)) => run_at_once(found, context, regs, progress),
        Op::Move(size, source, target) => run_move(
            found, size, source, target, context, regs, progress, predicted,
        ),
        _ => run_at_once(found, context, regs, progress),
    }
}

/// Carries out the instruction at the program counter at once, where it lies in the cartridge, was decoded before,
/// makes no shared access, ends in no exception and leaves no trace pending, and answers its clocks; or comes to the
/// shared write that a MOVE waits for, with what follows its answer in `predicted`. The bytes that it writes into work
/// RAM are in `progress`, the oldest first. Else it answers None. Only where it ends do the registers change. One that
/// was decoded and came to neither is not tried again until it is decoded anew.
#[inline(always)]
pub fn run_private(
    regs: &mut Regs,
    cart: &Cart,
    ram: &[u8; RAM_SIZE],
    cache: &mut DecodeCache,
    progress: &mut Progress,
    predicted: &mut Predicted,
) -> Option<PrivateStep>
    requires cache { IsCacheOf cart.now cache.old }
    ensures cache { IsCacheOf cart.now cache.new }
    ensures value { RunsPrivately result predicted.new (samples.sampled 0 regs.old) regs.old regs.new progress.new.writes.items (record { rom = cart.now; ram = ram.now; answers = [] }) }
{
    let address = regs.pc;
    if address % 2 == 1 || leaves_trace(regs, 0) {
        return None;
    }
    progress.restart(0);
    predicted.known = false;
    let context = Context {
        rom: cart.bytes(),
        ram,
        answers: &[],
    };
    let step = match cache.find(address, &context) {
        Some(found) => run(found, &context, regs, progress, predicted),
        None => return None,
    };
    if step.is_none() {
        cache.note_refused(address);
    }
    step
}

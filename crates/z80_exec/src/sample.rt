ghost use Rattle.std.specs.Prelude.{◌≡◌, ◌<◌, ◌≤◌, ℕ, false, true};
ghost use Rattle.arrayvec.specs.ArrayVec.{array_vec_len};
ghost use Rattle.z80_exec.specs.Access.Clauses.{done_of, memory_of};
ghost use Rattle.z80_exec.specs.Access.Memory.{instruction_bytes};
ghost use Rattle.z80_exec.specs.Sample.Caches.{IsInstructionOf};
ghost use Rattle.z80_exec.specs.Sample.Prediction.{EndsPredicted};
ghost use Rattle.z80_exec.specs.Sample.Samples as samples;
ghost use Rattle.z80_exec.specs.Sample.Times as times;
ghost use Rattle.z80_exec.specs.Sample.Samples.{CoversAccesses, Keeps, WaitsBelow, WaitsRightly, nothing, reported_by};

pub mod cache;
mod entry;
mod execution;
pub mod private;
pub mod step;
mod times;

use crate::access::memory::instruction_bytes;
use crate::{Context, Finish80, Predicted80, Progress80, Regs80, Step80};
use arrayvec::ArrayVec;
use cache::{CachedInstruction, DecodeCache80, cached};
use entry::enter;
use execution::execute;
use md_word::Parcel;
use rom_header::Cart;
use times::interrupt_time;
use z80_decode::Op80;

/// R, risen in its low seven bits.
fn risen(r: u8, by: u8) -> u8
    requires { by ≤ 2 }
    ensures { result ≡ samples.risen r by }
{
    r / 0x80 * 0x80 + (r % 0x80 + by) % 0x80
}

/// The registers once an instruction is fetched.
#[inline(always)]
#[tactic(auto, unfolding(crate::specs::Sample::Samples::fetched))]
fn fetch(found: &CachedInstruction, regs: &mut Regs80)
    requires { found.now.rise ≤ 2 }
    ensures { (first : ℕ) → found.now.rise ≡ samples.rise_of found.now.decoded.op first → regs.new ≡ samples.fetched found.now.decoded first regs.old }
{
    regs.pc = regs.pc.wrapping_add(u16::from(found.decoded.length));
    regs.r = risen(regs.r, found.rise);
}

/// The clocks of an instruction; of two times the longer where it was taken or continues.
#[inline(always)]
fn time_of(found: &CachedInstruction, taken: bool) -> u32
    requires short { found.now.short ≡ times.time_of found.now.decoded.op false }
    requires long { found.now.long ≡ times.time_of found.now.decoded.op true }
    ensures { result ≡ times.time_of found.now.decoded.op taken }
{
    if taken { found.long } else { found.short }
}

/// What an instruction results in that has ended.
#[inline(always)]
fn finish_of(found: &CachedInstruction, taken: bool) -> Finish80
    requires short { found.now.short ≡ times.time_of found.now.decoded.op false }
    requires long { found.now.long ≡ times.time_of found.now.decoded.op true }
    ensures time { result.t ≡ times.time_of found.now.decoded.op taken }
    ensures halted { result.halted ≡ samples.halts found.now.decoded.op }
    ensures after_ei { result.after_ei ≡ samples.is_ei found.now.decoded.op }
{
    Finish80 {
        t: time_of(found, taken),
        halted: matches!(found.decoded.op, Op80::Halt),
        after_ei: matches!(found.decoded.op, Op80::EnableInterrupts),
    }
}

/// Keeps what an instruction results in after the write that waits, where that is known.
#[inline(never)]
fn predict_finish(found: &CachedInstruction, predicted: &mut Predicted80)
    requires short { found.now.short ≡ times.time_of found.now.decoded.op false }
    requires long { found.now.long ≡ times.time_of found.now.decoded.op true }
    ensures known { predicted.new.known ≡ predicted.old.known }
    ensures regs { predicted.new.regs ≡ predicted.old.regs }
    ensures time { predicted.old.known ≡ true → predicted.new.finish.t ≡ times.time_of found.now.decoded.op false }
    ensures halted { predicted.old.known ≡ true → predicted.new.finish.halted ≡ samples.halts found.now.decoded.op }
    ensures after_ei { predicted.old.known ≡ true → predicted.new.finish.after_ei ≡ samples.is_ei found.now.decoded.op }
{
    if predicted.known {
        predicted.finish = finish_of(found, false);
    }
}

/// The instruction that begins with these bytes.
#[tactic(auto, unfolding(crate::specs::Sample::Samples::instruction))]
fn instruction(
    found: &CachedInstruction,
    context: &Context,
    regs: &mut Regs80,
    progress: &mut Progress80,
    predicted: &mut Predicted80,
) -> Step80
    requires fresh { done_of progress.old ≡ nothing }
    requires nothing { predicted.old.known ≡ false }
    requires rise { found.now.rise ≤ 2 }
    requires short { found.now.short ≡ times.time_of found.now.decoded.op false }
    requires long { found.now.long ≡ times.time_of found.now.decoded.op true }
    ensures predicted { (first : ℕ) → found.now.rise ≡ samples.rise_of found.now.decoded.op first
        → EndsPredicted result predicted.new (samples.instruction found.now.decoded first regs.old) (memory_of context.now) }
    ensures value { (first : ℕ) → found.now.rise ≡ samples.rise_of found.now.decoded.op first
        → reported_by result regs.new (done_of progress.new) ≡ samples.instruction found.now.decoded first regs.old (memory_of context.now) }
    ensures kept { Keeps result regs.old regs.new }
{
    let before = *regs;
    fetch(found, regs);
    match execute(found.decoded.op, context, regs, progress, predicted) {
        Ok(taken) => Step80::Done(finish_of(found, taken)),
        Err(waiting) => {
            predict_finish(found, predicted);
            *regs = before;
            Step80::Need(waiting)
        }
    }
}

/// An interrupt.
#[tactic(auto, unfolding(crate::specs::Sample::Samples::interrupt))]
fn interrupt(context: &Context, regs: &mut Regs80, progress: &mut Progress80) -> Step80
    requires { done_of progress.old ≡ nothing }
    ensures value { reported_by result regs.new (done_of progress.new) ≡ samples.interrupt regs.old (memory_of context.now) }
    ensures kept { Keeps result regs.old regs.new }
{
    let before = *regs;
    match enter(context, regs, progress) {
        Ok(()) => Step80::Done(Finish80 {
            t: interrupt_time(before.mode),
            halted: false,
            after_ei: false,
        }),
        Err(waiting) => {
            *regs = before;
            Step80::Need(waiting)
        }
    }
}

/// The memories of the processor and the answers so far.
#[inline(always)]
fn context_of<'a>(cart: &'a Cart, parcel: &'a Parcel, answers: &'a ArrayVec<u8, 4>) -> Context<'a>
    ensures { memory_of result ≡ record { rom = cart.now; ram = parcel.now.ram.value; bank = parcel.now.bank; answers = answers.now.items } }
{
    Context {
        rom: cart.bytes(),
        ram: &parcel.ram,
        bank: parcel.bank,
        answers: answers.as_slice(),
    }
}

/// The sample of a cause, with the instruction at the program counter.
#[inline(always)]
#[tactic(auto, unfolding(crate::specs::Sample::Samples::sampled))]
fn run(
    cause: u8,
    found: &CachedInstruction,
    context: &Context,
    regs: &mut Regs80,
    progress: &mut Progress80,
    predicted: &mut Predicted80,
) -> Step80
    requires { IsInstructionOf (instruction_bytes regs.old.pc (memory_of context.now)) found.now }
    ensures predicted { EndsPredicted result predicted.new (samples.sampled cause regs.old) (memory_of context.now) }
    ensures value { reported_by result regs.new (done_of progress.new) ≡ samples.sampled cause regs.old (memory_of context.now) }
    ensures kept { Keeps result regs.old regs.new }
{
    progress.restart();
    predicted.known = false;
    if cause == 0 {
        instruction(found, context, regs, progress, predicted)
    } else {
        interrupt(context, regs, progress)
    }
}

/// What the Z80 does at a sample, as far as the answers of its shared accesses go: it starts again
/// each time, and nothing private is written before all are answered.
///
/// `cause` is 0 for the instruction at the program counter, and more for an interrupt. `parcel` has
/// RAM and the bank register before it. Where it waits for an answer, to a read or a write, the
/// registers stay as they were. `progress` is cleared first; its writes count where the step is done:
/// the bytes written into RAM and the bank register, the oldest first. Where it waits for the answer to
/// a write, `predicted` has what it results in then, if that is known: of an LD of 8 bits. `cache` has
/// instructions that were decoded before. Source: Zilog UM0080, "Z80 Instruction Description" and
/// "Interrupt Response".
pub fn predict(
    regs: &mut Regs80,
    cart: &Cart,
    parcel: &Parcel,
    answers: &ArrayVec<u8, 4>,
    cause: u8,
    cache: &mut DecodeCache80,
    progress: &mut Progress80,
    predicted: &mut Predicted80,
) -> Step80
    ensures predicted { EndsPredicted result predicted.new (samples.sampled cause regs.old) (record { rom = cart.now; ram = parcel.now.ram.value; bank = parcel.now.bank; answers = answers.now.items }) }
    ensures value { reported_by result regs.new (done_of progress.new) ≡ samples.sampled cause regs.old (record { rom = cart.now; ram = parcel.now.ram.value; bank = parcel.now.bank; answers = answers.now.items }) }
    ensures kept { Keeps result regs.old regs.new }
    ensures waits { WaitsBelow result (array_vec_len answers.now) 4 }
    ensures asks { WaitsRightly result }
    ensures covers { CoversAccesses result progress.new.used }
{
    let context = context_of(cart, parcel, answers);
    let bytes = instruction_bytes(regs.pc, &context);
    let found = cache.instruction(regs.pc, &bytes);
    run(cause, &found, &context, regs, progress, predicted)
}

/// The same where nothing is to be foreseen and no instruction is kept.
pub fn go(
    regs: &mut Regs80,
    cart: &Cart,
    parcel: &Parcel,
    answers: &ArrayVec<u8, 4>,
    cause: u8,
    progress: &mut Progress80,
) -> Step80
    ensures value { reported_by result regs.new (done_of progress.new) ≡ samples.sampled cause regs.old (record { rom = cart.now; ram = parcel.now.ram.value; bank = parcel.now.bank; answers = answers.now.items }) }
    ensures kept { Keeps result regs.old regs.new }
    ensures waits { WaitsBelow result (array_vec_len answers.now) 4 }
    ensures asks { WaitsRightly result }
    ensures covers { CoversAccesses result progress.new.used }
{
    let context = context_of(cart, parcel, answers);
    let found = cached(&instruction_bytes(regs.pc, &context));
    let mut predicted = Predicted80::nothing();
    run(cause, &found, &context, regs, progress, &mut predicted)
}

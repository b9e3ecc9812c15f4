ghost use Rattle.std.specs.Prelude.{◌≡◌, ◌≤◌, false, length};
ghost use Rattle.arrayvec.specs.ArrayVec.{array_vec_len};
ghost use Rattle.m68k_decode.specs.Ops.{IsOp, IsInstruction};
ghost use Rattle.m68k_access.specs.Clauses.{done_of, memory_of};
ghost use Rattle.m68k_exec.specs.Sample.Caches.{IsCacheOf};
ghost use Rattle.m68k_exec.specs.Sample.Prediction.{EndsPredicted};
ghost use Rattle.m68k_exec.specs.Sample.Samples.{named, Keeps, NamesInstruction, SpendsRightly, WaitsBelow, nothing, reported_by};
ghost use Rattle.m68k_exec.specs.Sample.Samples as samples;

pub mod cache;
mod causes;
mod ends;
mod entry;
mod exception;
mod execution;
mod private;
pub mod step;

use crate::{Context, Predicted, Progress, Step};
use arrayvec::ArrayVec;
use cache::DecodeCache;
use causes::{instruction, interrupt, trace};
use m68k_access::memory::{RAM_SIZE, instruction_words};
use m68k_decode::{Decoded, Op, decode_into};
use md_word::Regs;
pub use private::run_private;
use rom_header::Cart;

/// The sample of this cause, with the instruction at the program counter and its first word.
#[inline(always)]
fn sample(
    cause: u8,
    decoded: &Decoded,
    first: u16,
    context: &Context,
    regs: &mut Regs,
    progress: &mut Progress,
    step: &mut Step,
    predicted: &mut Predicted,
)
    requires decoded { IsInstruction decoded.now }
    requires fresh { done_of progress.old ≡ nothing }
    requires few { length context.now.answers.now ≤ 32 }
    requires nothing { predicted.old.known ≡ false }
    ensures predicted { EndsPredicted step.new predicted.new (samples.sample_of cause decoded.now first regs.old) (memory_of context.now) }
    ensures value { reported_by step.new regs.new (done_of progress.new) ≡ samples.sample_of cause decoded.now first regs.old (memory_of context.now) }
    ensures kept { Keeps step.new regs.old regs.new }
{
    match cause {
        0 => instruction(decoded, first, context, regs, progress, step, predicted),
        1..=7 => interrupt(cause, &decoded.op, context, regs, progress, step),
        _ => trace(&decoded.op, context, regs, progress, step),
    }
}

/// The sample of a cause, over the memories of the processor. It names the instruction that the
/// decoder gives.
#[tactic(auto, unfolding(crate::specs::Sample::Samples::sampled))]
fn run(
    regs: &mut Regs,
    cart: &Cart,
    ram: &[u8; RAM_SIZE],
    answers: &ArrayVec<u16, 32>,
    cause: u8,
    progress: &mut Progress,
    step: &mut Step,
    predicted: &mut Predicted,
)
    ensures value { reported_by step.new regs.new (done_of progress.new) ≡ samples.sampled cause regs.old (record { rom = cart.now; ram = ram.now; answers = answers.now.items }) }
    ensures kept { Keeps step.new regs.old regs.new }
    ensures predicted { EndsPredicted step.new predicted.new (samples.sampled cause regs.old) (record { rom = cart.now; ram = ram.now; answers = answers.now.items }) }
    ensures instruction { IsOp (named regs.old (record { rom = cart.now; ram = ram.now; answers = answers.now.items })) }
{
    progress.restart(0);
    predicted.known = false;
    let context = Context {
        rom: cart.bytes(),
        ram,
        answers: answers.as_slice(),
    };
    let words = instruction_words(regs.pc, &context);
    let mut decoded = Decoded {
        op: Op::Nop,
        length: 2,
    };
    decode_into(&words, &mut decoded);
    sample(
        cause, &decoded, words[0], &context, regs, progress, step, predicted,
    )
}

/// What the 68000 does at a sample, as far as the answers of its shared accesses go: it starts
/// again each time, and nothing private is written before all are answered.
///
/// `cause` is 0 for the instruction at the program counter, 1 to 7 for an interrupt of that level,
/// and more for a pending trace. `ram` is work RAM before it. Where it waits for an answer the
/// registers stay as they were. `progress` is cleared first; its writes count where the step is
/// done: the bytes written into work RAM, the oldest first. `step` is its outcome, whatever it
/// was. Where it waits for the answer to a write, `predicted` has its outcome then, if that is known:
/// of a MOVE whose last access waits, and whose other accesses were answered.
///
/// Source: M68000 Programmer's Reference Manual, sections 4 and 6; M68000 User's Manual, section 6.
pub fn predict(
    regs: &mut Regs,
    cart: &Cart,
    ram: &[u8; RAM_SIZE],
    answers: &ArrayVec<u16, 32>,
    cause: u8,
    progress: &mut Progress,
    step: &mut Step,
    predicted: &mut Predicted,
)
    ensures predicted { EndsPredicted step.new predicted.new (samples.sampled cause regs.old) (record { rom = cart.now; ram = ram.now; answers = answers.now.items }) }
    ensures value { reported_by step.new regs.new (done_of progress.new) ≡ samples.sampled cause regs.old (record { rom = cart.now; ram = ram.now; answers = answers.now.items }) }
    ensures kept { Keeps step.new regs.old regs.new }
    ensures waits { WaitsBelow step.new (array_vec_len answers.now) 32 }
    ensures spent { SpendsRightly step.new }
    ensures instruction { NamesInstruction step.new }
{
    run(regs, cart, ram, answers, cause, progress, step, predicted)
}

/// The same where nothing is to be predicted.
pub fn go(
    regs: &mut Regs,
    cart: &Cart,
    ram: &[u8; RAM_SIZE],
    answers: &ArrayVec<u16, 32>,
    cause: u8,
    progress: &mut Progress,
    step: &mut Step,
)
    ensures value { reported_by step.new regs.new (done_of progress.new) ≡ samples.sampled cause regs.old (record { rom = cart.now; ram = ram.now; answers = answers.now.items }) }
    ensures kept { Keeps step.new regs.old regs.new }
    ensures waits { WaitsBelow step.new (array_vec_len answers.now) 32 }
    ensures spent { SpendsRightly step.new }
    ensures instruction { NamesInstruction step.new }
{
    let mut predicted = Predicted::nothing();
    predict(
        regs,
        cart,
        ram,
        answers,
        cause,
        progress,
        step,
        &mut predicted,
    )
}

/// The same with a cache of the cartridge's instructions.
#[tactic(auto, unfolding(crate::specs::Sample::Samples::sampled))]
fn run_cached(
    regs: &mut Regs,
    cart: &Cart,
    ram: &[u8; RAM_SIZE],
    answers: &ArrayVec<u16, 32>,
    cause: u8,
    cache: &mut DecodeCache,
    progress: &mut Progress,
    step: &mut Step,
    predicted: &mut Predicted,
)
    requires cache { IsCacheOf cart.now cache.old }
    ensures cache { IsCacheOf cart.now cache.new }
    ensures value { reported_by step.new regs.new (done_of progress.new) ≡ samples.sampled cause regs.old (record { rom = cart.now; ram = ram.now; answers = answers.now.items }) }
    ensures kept { Keeps step.new regs.old regs.new }
    ensures predicted { EndsPredicted step.new predicted.new (samples.sampled cause regs.old) (record { rom = cart.now; ram = ram.now; answers = answers.now.items }) }
    ensures instruction { IsOp (named regs.old (record { rom = cart.now; ram = ram.now; answers = answers.now.items })) }
{
    progress.restart(0);
    predicted.known = false;
    let context = Context {
        rom: cart.bytes(),
        ram,
        answers: answers.as_slice(),
    };
    let address = regs.pc;
    cache.refresh(address, &context);
    let found = cache.entry(address, &context);
    sample(
        cause,
        &found.decoded,
        found.first,
        &context,
        regs,
        progress,
        step,
        predicted,
    )
}

/// The same as `predict`, with a cache of the cartridge's instructions.
pub fn predict_cached(
    regs: &mut Regs,
    cart: &Cart,
    ram: &[u8; RAM_SIZE],
    answers: &ArrayVec<u16, 32>,
    cause: u8,
    cache: &mut DecodeCache,
    progress: &mut Progress,
    step: &mut Step,
    predicted: &mut Predicted,
)
    requires cache { IsCacheOf cart.now cache.old }
    ensures cache { IsCacheOf cart.now cache.new }
    ensures predicted { EndsPredicted step.new predicted.new (samples.sampled cause regs.old) (record { rom = cart.now; ram = ram.now; answers = answers.now.items }) }
    ensures value { reported_by step.new regs.new (done_of progress.new) ≡ samples.sampled cause regs.old (record { rom = cart.now; ram = ram.now; answers = answers.now.items }) }
    ensures kept { Keeps step.new regs.old regs.new }
    ensures waits { WaitsBelow step.new (array_vec_len answers.now) 32 }
    ensures spent { SpendsRightly step.new }
    ensures instruction { NamesInstruction step.new }
{
    run_cached(
        regs, cart, ram, answers, cause, cache, progress, step, predicted,
    )
}

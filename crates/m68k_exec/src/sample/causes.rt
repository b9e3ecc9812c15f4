ghost use Rattle.std.specs.Prelude.{◌≡◌, ◌<◌, ◌≤◌, false, length};
ghost use Rattle.m68k_decode.specs.Ops.{IsInstruction};
ghost use Rattle.m68k_access.specs.Clauses.{done_of, memory_of};
ghost use Rattle.m68k_exec.specs.Sample.Prediction.{EndsPredicted};
ghost use Rattle.m68k_exec.specs.Sample.Samples.{Keeps, nothing, reported_by};
ghost use Rattle.m68k_exec.specs.Sample.Samples as samples;

use crate::sample::ends::{
    ended_by, met_at_last, predict_finish, take_address_error, take_exception,
};
use crate::sample::exception::Exception;
use crate::sample::execution::execute;
use crate::{Context, Predicted, Progress, Step, Stop};
use m68k_access::accesses::ask;
use m68k_decode::{Decoded, Op};
use m68k_time::clocks;
use md_word::{Regs, Request68};

/// The vector number of the trace.
const TRACE_EXCEPTION: u8 = 9;

/// The instruction with this first word. At an address error the changes of registers and the
/// private writes are dropped, and the accesses before it stay.
#[inline(always)]
#[tactic(auto, unfolding(crate::specs::Sample::Samples::instruction))]
pub fn instruction(
    decoded: &Decoded,
    first: u16,
    context: &Context,
    regs: &mut Regs,
    progress: &mut Progress,
    step: &mut Step,
    predicted: &mut Predicted,
)
    requires decoded { IsInstruction decoded.now }
    requires fresh { done_of progress.old ≡ nothing }
    requires few { length context.now.answers.now ≤ 32 }
    requires nothing { predicted.old.known ≡ false }
    ensures predicted { EndsPredicted step.new predicted.new (samples.instruction decoded.now first regs.old) (memory_of context.now) }
    ensures value { reported_by step.new regs.new (done_of progress.new) ≡ samples.instruction decoded.now first regs.old (memory_of context.now) }
    ensures kept { Keeps step.new regs.old regs.new }
{
    let op = &decoded.op;
    let found = *regs;
    let start = found.pc;
    if start % 2 == 1 {
        return take_address_error(
            op, first, start, true, &found, context, regs, progress, step,
        );
    }
    regs.pc = start.wrapping_add(u32::from(decoded.length));
    match execute(op, start, context, regs, progress, predicted) {
        Ok(outcome) => ended_by(op, &found, &outcome, context, regs, progress, step),
        Err(Stop::Ask(request)) => {
            if predicted.known {
                let clocks = clocks(op, met_at_last(context));
                predict_finish(op, clocks, &found, context, predicted);
            }
            *regs = found;
            *step = Step::Need(request);
        }
        Err(
            Stop::Odd {
                address,
                read,
                used,
            },
        ) => {
            *regs = found;
            progress.restart(used);
            take_address_error(
                op, first, address, read, &found, context, regs, progress, step,
            )
        }
    }
}

/// An interrupt of this level, which is acknowledged first.
#[inline(never)]
#[tactic(auto, unfolding(crate::specs::Sample::Samples::interrupt))]
pub fn interrupt(
    level: u8,
    op: &Op,
    context: &Context,
    regs: &mut Regs,
    progress: &mut Progress,
    step: &mut Step,
)
    requires level { level < 8 }
    requires fresh { done_of progress.old ≡ nothing }
    ensures value { reported_by step.new regs.new (done_of progress.new) ≡ samples.interrupt level op.now regs.old (memory_of context.now) }
    ensures kept { Keeps step.new regs.old regs.new }
{
    let found = *regs;
    match ask(Request68::Ack(level), context, progress) {
        Ok(_) => {
            let exception = Exception::Interrupt(level);
            take_exception(op, exception, false, &found, context, regs, progress, step)
        }
        Err(Stop::Ask(request)) => *step = Step::Need(request),
        Err(Stop::Odd { .. }) => unreachable!(),
    }
}

/// A trace.
#[inline(never)]
#[tactic(auto, unfolding(crate::specs::Sample::Samples::trace))]
pub fn trace(op: &Op, context: &Context, regs: &mut Regs, progress: &mut Progress, step: &mut Step)
    requires fresh { done_of progress.old ≡ nothing }
    ensures value { reported_by step.new regs.new (done_of progress.new) ≡ samples.trace op.now regs.old (memory_of context.now) }
    ensures kept { Keeps step.new regs.old regs.new }
{
    let found = *regs;
    let exception = Exception::Numbered(TRACE_EXCEPTION);
    take_exception(op, exception, false, &found, context, regs, progress, step)
}

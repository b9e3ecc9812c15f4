ghost use Rattle.std.specs.Prelude.{◌≡◌, ◌≢◌, ◌≤◌, false, true, length};
ghost use Rattle.arrayvec.specs.ArrayVec.{array_vec_len};
ghost use Rattle.m68k_access.specs.Clauses.{done_of, memory_of};
ghost use Rattle.m68k_access.specs.Outcomes.{outcome_of};
ghost use Rattle.m68k_exec.specs.Sample.Entries.{IsException, number_of};
ghost use Rattle.m68k_time.specs.Clocks.{clocks_of};
ghost use Rattle.m68k_exec.specs.Sample.Prediction.{FinishesPredicted, at_last};
ghost use Rattle.m68k_exec.specs.Sample.Samples.{Keeps, reported_by};
ghost use Rattle.m68k_exec.specs.Sample.Samples as samples;
ghost use Rattle.m68k_exec.specs.declared.sample.exception.Exception.TheVariants.{AddressError, Numbered};

use crate::sample::entry::enter;
use crate::sample::exception::{ADDRESS_ERROR, Exception};
use crate::{Context, Finish, Outcome, Predicted, Progress, Step, Stop};
use m68k_decode::Op;
use md_word::{Regs, Spent, TRACE};

/// Whether an instruction that began with these registers and ended in this exception, 0 for none,
/// leaves a trace pending.
pub(super) fn leaves_trace(regs: &Regs, vector: u8) -> bool
    ensures { result ≡ samples.leaves_trace regs.now vector }
{
    let sr = regs.sr;
    sr & TRACE != 0 && !matches!(vector, 3 | 4 | 8 | 10 | 11)
}

/// What an exception took, by its vector number.
fn spent_in(vector: u8, accesses: u8) -> Spent
    ensures { result ≡ samples.spent_in vector accesses }
{
    Spent {
        taken: false,
        expired: false,
        count: 0,
        cause: vector,
        accesses,
    }
}

/// An exception of a sample that found the registers `found`, from those with the program counter
/// that it saves.
#[inline(never)]
#[tactic(auto, unfolding(crate::specs::Sample::Samples::take_exception))]
pub fn take_exception(
    op: &Op,
    exception: Exception,
    trace: bool,
    found: &Regs,
    context: &Context,
    regs: &mut Regs,
    progress: &mut Progress,
    step: &mut Step,
)
    requires exception { IsException exception }
    requires room { array_vec_len progress.old.writes ≤ 64 }
    requires used { progress.old.used ≤ 4 }
    requires some { number_of exception ≢ 0 }
    ensures value { reported_by step.new regs.new (done_of progress.new) ≡ samples.take_exception op.now exception trace found.now regs.old (memory_of context.now) (done_of progress.old) }
    ensures kept { Keeps step.new found.now regs.new }
{
    match enter(exception, context, regs, progress) {
        Ok(Some(after)) => {
            *regs = after;
            *step = Step::Done(Finish {
                op: *op,
                spent: spent_in(exception.number(), progress.used as u8),
                stopped: false,
                halted: false,
                trace,
            });
        }
        Ok(None) => {
            progress.writes.clear();
            *regs = *found;
            *step = Step::Done(Finish {
                op: *op,
                spent: spent_in(ADDRESS_ERROR, progress.used as u8),
                stopped: false,
                halted: true,
                trace: false,
            });
        }
        Err(Stop::Ask(request)) => {
            *regs = *found;
            *step = Step::Need(request);
        }
        Err(Stop::Odd { .. }) => unreachable!(),
    }
}

/// An address error at a word or long of this address, of the instruction with this first word.
#[inline(never)]
pub fn take_address_error(
    op: &Op,
    first: u16,
    address: u32,
    read: bool,
    found: &Regs,
    context: &Context,
    regs: &mut Regs,
    progress: &mut Progress,
    step: &mut Step,
)
    requires room { array_vec_len progress.old.writes ≤ 64 }
    requires used { progress.old.used ≤ 4 }
    ensures value { reported_by step.new regs.new (done_of progress.new) ≡ samples.take_exception op.now (AddressError first address read) false found.now regs.old (memory_of context.now) (done_of progress.old) }
    ensures kept { Keeps step.new found.now regs.new }
{
    let exception = Exception::AddressError(first, address, read);
    take_exception(op, exception, false, found, context, regs, progress, step)
}

/// An instruction that ended in the exception of this vector number.
#[inline(never)]
fn take_numbered(
    op: &Op,
    vector: u8,
    found: &Regs,
    context: &Context,
    regs: &mut Regs,
    progress: &mut Progress,
    step: &mut Step,
)
    requires room { array_vec_len progress.old.writes ≤ 64 }
    requires used { progress.old.used ≤ 4 }
    requires some { vector ≢ 0 }
    ensures value { reported_by step.new regs.new (done_of progress.new) ≡ samples.take_exception op.now (Numbered vector) (samples.leaves_trace found.now vector) found.now regs.old (memory_of context.now) (done_of progress.old) }
    ensures kept { Keeps step.new found.now regs.new }
{
    let exception = Exception::Numbered(vector);
    let trace = leaves_trace(found, vector);
    take_exception(op, exception, trace, found, context, regs, progress, step)
}

/// An instruction that ended, perhaps in an exception.
#[tactic(auto, unfolding(crate::specs::Sample::Samples::ended_by))]
pub fn ended_by(
    op: &Op,
    found: &Regs,
    outcome: &Outcome,
    context: &Context,
    regs: &mut Regs,
    progress: &mut Progress,
    step: &mut Step,
)
    requires room { array_vec_len progress.old.writes ≤ 64 }
    requires most { progress.old.used ≤ 32 }
    requires ended { outcome.now.vector ≢ 0 → progress.old.used ≤ 4 }
    ensures value { reported_by step.new regs.new (done_of progress.new) ≡ samples.ended_by op.now found.now (outcome_of outcome.now regs.old) (memory_of context.now) (done_of progress.old) }
    ensures kept { Keeps step.new found.now regs.new }
{
    let vector = outcome.vector;
    if vector != 0 {
        return take_numbered(op, vector, found, context, regs, progress, step);
    }
    *step = Step::Done(Finish {
        op: *op,
        spent: Spent {
            taken: outcome.taken,
            expired: outcome.expired,
            count: outcome.count,
            cause: 0,
            accesses: progress.used as u8,
        },
        stopped: outcome.stopped,
        halted: false,
        trace: leaves_trace(found, 0),
    });
}

/// What an instruction met that ends with the access that waits, takes no branch and counts nothing.
#[inline(always)]
pub fn met_at_last(context: &Context) -> Spent
    requires { length context.now.answers.now ≤ 32 }
    ensures { result ≡ at_last (memory_of context.now) }
{
    Spent {
        taken: false,
        expired: false,
        count: 0,
        cause: 0,
        accesses: (context.answers.len() + 1) as u8,
    }
}

/// Keeps the outcome of a sample that found the registers `found` and takes these clocks, where the write that waits
/// is its last access.
pub fn predict_finish(
    op: &Op,
    clocks: u32,
    found: &Regs,
    context: &Context,
    predicted: &mut Predicted,
)
    requires few { length context.now.answers.now ≤ 32 }
    requires clocks { clocks ≡ clocks_of op.now (at_last (memory_of context.now)) }
    ensures known { predicted.new.known ≡ predicted.old.known }
    ensures regs { predicted.new.regs ≡ predicted.old.regs }
    ensures finish { predicted.old.known ≡ true → FinishesPredicted predicted.new op.now found.now (memory_of context.now) }
{
    if predicted.known {
        predicted.finish = Finish {
            op: *op,
            spent: met_at_last(context),
            stopped: false,
            halted: false,
            trace: leaves_trace(found, 0),
        };
        predicted.clocks = clocks;
    }
}

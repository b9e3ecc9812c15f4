ghost use Rattle.std.specs.Prelude.{◌≡◌, ◌+◌, ◌≤◌, false};
ghost use Rattle.arrayvec.specs.ArrayVec.{array_vec_len};
ghost use Rattle.z80_exec.specs.Access.Clauses.{Ends, Leaves, Meets, done_of, memory_of};
ghost use Rattle.z80_exec.specs.Access.Actions as actions;
ghost use Rattle.z80_exec.specs.Access.Operands as operands;
ghost use Rattle.z80_exec.specs.Rows.Loads as loads;
ghost use Rattle.z80_exec.specs.Sample.Prediction.{Predicts, WaitsForLast};

use crate::access::operands::{address, fetch, pop, push};
use crate::access::{read_word, write, write_word};
use crate::regs80::pair_at;
use crate::{Context, Predicted80, Progress80, Regs80, Waiting};
use z80_alu::special_loaded;
use z80_decode::{Index, Pair, Place8, Special};

/// Writes a byte. Where the write waits, and takes the next answer, the registers after it are predicted:
/// those given. The error is the access that waits for its answer.
#[inline(always)]
#[tactic(auto, using(crate::proofs::Prediction::nothing_waits))]
fn write_last(
    at: u16,
    value: u8,
    context: &Context,
    regs: &Regs80,
    progress: &mut Progress80,
    predicted: &mut Predicted80,
) -> Result<(), Waiting>
    requires fresh { array_vec_len progress.old.writes ≡ 0 }
    requires nothing { predicted.old.known ≡ false }
    ensures value { Meets result (done_of progress.new) (actions.write at value (memory_of context.now) (done_of progress.old)) }
    ensures predicted { WaitsForLast result predicted.new regs.now (actions.write at value) tt (memory_of context.now) (done_of progress.old) }
{
    let last = progress.used == context.answers.len();
    match write(at, value, context, progress) {
        Ok(()) => Ok(()),
        Err(waiting) => {
            if last {
                predicted.known = true;
                predicted.regs = *regs;
            }
            Err(waiting)
        }
    }
}

/// Puts a byte in its place. Where the write waits, the registers after it are predicted.
/// The error is the access that waits for its answer.
#[inline(always)]
#[tactic(auto, using(crate::proofs::Prediction::nothing_waits), unfolding(crate::specs::Access::Operands::put, crate::specs::Access::Operands::put_memory))]
fn put_last(
    place: Place8,
    value: u8,
    context: &Context,
    regs: &mut Regs80,
    progress: &mut Progress80,
    predicted: &mut Predicted80,
) -> Result<(), Waiting>
    requires fresh { array_vec_len progress.old.writes ≡ 0 }
    requires nothing { predicted.old.known ≡ false }
    ensures value { Leaves result regs.new (done_of progress.new) (operands.put place value regs.old (memory_of context.now) (done_of progress.old)) }
    ensures predicted { WaitsForLast result predicted.new regs.old (operands.put place value regs.old) regs.old (memory_of context.now) (done_of progress.old) }
{
    match address(place, regs) {
        Some(at) => write_last(at, value, context, regs, progress, predicted),
        None => {
            regs.set_byte(place, value);
            Ok(())
        }
    }
}

/// LD of 8 bits. The error is the access that waits for its answer.
#[tactic(auto, using(crate::proofs::Prediction::nothing_predicted), unfolding(crate::specs::Rows::Loads::load))]
pub fn load(
    target: Place8,
    source: Place8,
    context: &Context,
    regs: &mut Regs80,
    progress: &mut Progress80,
    predicted: &mut Predicted80,
) -> Result<bool, Waiting>
    requires fresh { array_vec_len progress.old.writes ≡ 0 }
    requires nothing { predicted.old.known ≡ false }
    ensures value { Ends result regs.new (done_of progress.new) (loads.load target source regs.old (memory_of context.now) (done_of progress.old)) }
    ensures predicted { Predicts result predicted.new (loads.load target source regs.old) (memory_of context.now) (done_of progress.old) }
{
    let value = fetch(source, context, regs, progress)?;
    match put_last(target, value, context, regs, progress, predicted) {
        Ok(()) => Ok(false),
        Err(waiting) => Err(waiting),
    }
}

/// LD A,I and LD A,R.
#[tactic(auto, unfolding(crate::specs::Rows::Loads::load_from_special))]
pub fn load_from_special(special: Special, regs: &mut Regs80)
    ensures { regs.new ≡ loads.load_from_special special regs.old }
{
    let value = match special {
        Special::Interrupt => regs.i,
        Special::Refresh => regs.r,
    };
    let f = special_loaded(value, regs.iff2, regs.f());
    regs.set_af(value, f);
}

/// LD I,A and LD R,A.
#[tactic(auto, unfolding(crate::specs::Rows::Loads::load_to_special))]
pub fn load_to_special(special: Special, regs: &mut Regs80)
    ensures { regs.new ≡ loads.load_to_special special regs.old }
{
    match special {
        Special::Interrupt => regs.i = regs.a(),
        Special::Refresh => regs.r = regs.a(),
    }
}

/// LD HL,(nn) and LD dd,(nn). The error is the access that waits for its answer.
#[tactic(auto, unfolding(crate::specs::Rows::Loads::load_pair_from))]
pub fn load_pair_from(
    pair: Pair,
    at: u16,
    context: &Context,
    regs: &mut Regs80,
    progress: &mut Progress80,
) -> Result<bool, Waiting>
    ensures { Ends result regs.new (done_of progress.new) (loads.load_pair_from pair at regs.old (memory_of context.now) (done_of progress.old)) }
{
    let value = read_word(at, context, progress)?;
    regs.set_pair(pair, value);
    Ok(false)
}

/// LD (nn),HL and LD (nn),dd. The error is the access that waits for its answer.
#[tactic(auto, unfolding(crate::specs::Rows::Loads::store_pair))]
pub fn store_pair(
    at: u16,
    pair: Pair,
    context: &Context,
    regs: &Regs80,
    progress: &mut Progress80,
) -> Result<bool, Waiting>
    requires { array_vec_len progress.old.writes + 2 ≤ 4 }
    ensures { Ends result regs.now (done_of progress.new) (loads.store_pair at pair regs.now (memory_of context.now) (done_of progress.old)) }
{
    write_word(at, regs.pair(pair), context, progress)?;
    Ok(false)
}

/// LD SP,HL.
#[tactic(auto, unfolding(crate::specs::Rows::Loads::load_stack_pointer))]
pub fn load_stack_pointer(index: Index, regs: &mut Regs80)
    ensures { regs.new ≡ loads.load_stack_pointer index regs.old }
{
    regs.sp = regs.pair(pair_at(index));
}

/// PUSH. The error is the access that waits for its answer.
#[tactic(auto, unfolding(crate::specs::Rows::Loads::push_pair))]
pub fn push_pair(
    pair: Pair,
    context: &Context,
    regs: &mut Regs80,
    progress: &mut Progress80,
) -> Result<bool, Waiting>
    requires { array_vec_len progress.old.writes + 2 ≤ 4 }
    ensures { Ends result regs.new (done_of progress.new) (loads.push_pair pair regs.old (memory_of context.now) (done_of progress.old)) }
{
    push(regs.pair(pair), context, regs, progress)?;
    Ok(false)
}

/// POP. The error is the access that waits for its answer.
#[tactic(auto, unfolding(crate::specs::Rows::Loads::pop_pair))]
pub fn pop_pair(
    pair: Pair,
    context: &Context,
    regs: &mut Regs80,
    progress: &mut Progress80,
) -> Result<bool, Waiting>
    ensures { Ends result regs.new (done_of progress.new) (loads.pop_pair pair regs.old (memory_of context.now) (done_of progress.old)) }
{
    let value = pop(context, regs, progress)?;
    regs.set_pair(pair, value);
    Ok(false)
}

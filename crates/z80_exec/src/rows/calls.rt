ghost use Rattle.std.specs.Prelude.{◌+◌, ◌≤◌};
ghost use Rattle.arrayvec.specs.ArrayVec.{array_vec_len};
ghost use Rattle.z80_exec.specs.Access.Clauses.{Ends, done_of, memory_of};
ghost use Rattle.z80_exec.specs.Rows.Calls as calls;

use crate::access::conditions::holds;
use crate::access::operands::{pop, push};
use crate::{Context, Progress80, Regs80, Waiting};
use z80_decode::Condition;

/// CALL nn, and RST. The error is the access that waits for its answer.
#[tactic(auto, unfolding(crate::specs::Rows::Calls::call))]
pub fn call(
    target: u16,
    context: &Context,
    regs: &mut Regs80,
    progress: &mut Progress80,
) -> Result<bool, Waiting>
    requires { array_vec_len progress.old.writes + 2 ≤ 4 }
    ensures { Ends result regs.new (done_of progress.new) (calls.call target regs.old (memory_of context.now) (done_of progress.old)) }
{
    push(regs.pc, context, regs, progress)?;
    regs.pc = target;
    Ok(true)
}

/// CALL cc,nn. The error is the access that waits for its answer.
#[tactic(auto, unfolding(crate::specs::Rows::Calls::call_if))]
pub fn call_if(
    condition: Condition,
    target: u16,
    context: &Context,
    regs: &mut Regs80,
    progress: &mut Progress80,
) -> Result<bool, Waiting>
    requires { array_vec_len progress.old.writes + 2 ≤ 4 }
    ensures { Ends result regs.new (done_of progress.new) (calls.call_if condition target regs.old (memory_of context.now) (done_of progress.old)) }
{
    if holds(condition, regs.f()) {
        call(target, context, regs, progress)
    } else {
        Ok(false)
    }
}

/// RET, and RETI. The error is the access that waits for its answer.
#[tactic(auto, unfolding(crate::specs::Rows::Calls::return_from))]
pub fn return_from(
    context: &Context,
    regs: &mut Regs80,
    progress: &mut Progress80,
) -> Result<bool, Waiting>
    ensures { Ends result regs.new (done_of progress.new) (calls.return_from regs.old (memory_of context.now) (done_of progress.old)) }
{
    regs.pc = pop(context, regs, progress)?;
    Ok(true)
}

/// RET cc. The error is the access that waits for its answer.
#[tactic(auto, unfolding(crate::specs::Rows::Calls::return_if))]
pub fn return_if(
    condition: Condition,
    context: &Context,
    regs: &mut Regs80,
    progress: &mut Progress80,
) -> Result<bool, Waiting>
    ensures { Ends result regs.new (done_of progress.new) (calls.return_if condition regs.old (memory_of context.now) (done_of progress.old)) }
{
    if holds(condition, regs.f()) {
        return_from(context, regs, progress)
    } else {
        Ok(false)
    }
}

/// RETN. The error is the access that waits for its answer.
#[tactic(auto, unfolding(crate::specs::Rows::Calls::return_from_non_maskable))]
pub fn return_from_non_maskable(
    context: &Context,
    regs: &mut Regs80,
    progress: &mut Progress80,
) -> Result<bool, Waiting>
    ensures { Ends result regs.new (done_of progress.new) (calls.return_from_non_maskable regs.old (memory_of context.now) (done_of progress.old)) }
{
    regs.iff1 = regs.iff2;
    return_from(context, regs, progress)
}

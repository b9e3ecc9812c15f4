ghost use Rattle.std.specs.Prelude.{◌≡◌, ◌+◌, ◌≤◌};
ghost use Rattle.arrayvec.specs.ArrayVec.{array_vec_len};
ghost use Rattle.z80_exec.specs.Access.Clauses.{Ends, done_of, memory_of};
ghost use Rattle.z80_exec.specs.Rows.Arithmetic as arithmetic;

use crate::access::operands::{fetch, put};
use crate::{Context, Progress80, Regs80, Waiting};
use z80_alu::compute;
use z80_decode::{Place8, Task80};

/// An operation of A and an operand, with its result in A.
/// The error is the access that waits for its answer.
#[tactic(auto, unfolding(crate::specs::Rows::Arithmetic::arithmetic))]
pub fn operate(
    task: Task80,
    place: Place8,
    context: &Context,
    regs: &mut Regs80,
    progress: &mut Progress80,
) -> Result<bool, Waiting>
    ensures { Ends result regs.new (done_of progress.new) (arithmetic.arithmetic task place regs.old (memory_of context.now) (done_of progress.old)) }
{
    let value = fetch(place, context, regs, progress)?;
    let out = compute(task, regs.a(), value, regs.f());
    regs.set_af(out.value, out.f);
    Ok(false)
}

/// Reads an operand, and writes the result in its place: INC and DEC, and the rotates, shifts, RES
/// and SET of the prefix CB. The error is the access that waits for its answer.
#[tactic(auto, unfolding(crate::specs::Rows::Arithmetic::change))]
pub fn change(
    task: Task80,
    place: Place8,
    context: &Context,
    regs: &mut Regs80,
    progress: &mut Progress80,
) -> Result<bool, Waiting>
    requires { array_vec_len progress.old.writes + 1 ≤ 4 }
    ensures { Ends result regs.new (done_of progress.new) (arithmetic.change task place regs.old (memory_of context.now) (done_of progress.old)) }
{
    let value = fetch(place, context, regs, progress)?;
    let out = compute(task, regs.a(), value, regs.f());
    put(place, out.value, context, regs, progress)?;
    regs.set_f(out.f);
    Ok(false)
}

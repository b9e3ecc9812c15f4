ghost use Rattle.std.specs.Prelude.{◌+◌, ◌≤◌};
ghost use Rattle.arrayvec.specs.ArrayVec.{array_vec_len};
ghost use Rattle.z80_exec.specs.Access.Clauses.{Ends, done_of, memory_of};
ghost use Rattle.z80_exec.specs.Rows.Rotates as rotates;

use crate::access::{read, write};
use crate::{Context, Progress80, Regs80, Waiting};
use z80_alu::{compute, rld_memory, rrd_memory};
use z80_decode::Task80;

/// RLD. The error is the access that waits for its answer.
#[tactic(auto, unfolding(crate::specs::Rows::Rotates::rotate_digits_left))]
pub fn rotate_digits_left(
    context: &Context,
    regs: &mut Regs80,
    progress: &mut Progress80,
) -> Result<bool, Waiting>
    requires { array_vec_len progress.old.writes + 1 ≤ 4 }
    ensures { Ends result regs.new (done_of progress.new) (rotates.rotate_digits_left regs.old (memory_of context.now) (done_of progress.old)) }
{
    let a = regs.a();
    let value = read(regs.hl, context, progress)?;
    let out = compute(Task80::Rld, a, value, regs.f());
    write(regs.hl, rld_memory(a, value), context, progress)?;
    regs.set_af(out.value, out.f);
    Ok(false)
}

/// RRD. The error is the access that waits for its answer.
#[tactic(auto, unfolding(crate::specs::Rows::Rotates::rotate_digits_right))]
pub fn rotate_digits_right(
    context: &Context,
    regs: &mut Regs80,
    progress: &mut Progress80,
) -> Result<bool, Waiting>
    requires { array_vec_len progress.old.writes + 1 ≤ 4 }
    ensures { Ends result regs.new (done_of progress.new) (rotates.rotate_digits_right regs.old (memory_of context.now) (done_of progress.old)) }
{
    let a = regs.a();
    let value = read(regs.hl, context, progress)?;
    let out = compute(Task80::Rrd, a, value, regs.f());
    write(regs.hl, rrd_memory(a, value), context, progress)?;
    regs.set_af(out.value, out.f);
    Ok(false)
}

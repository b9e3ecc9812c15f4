ghost use Rattle.z80_exec.specs.Access.Clauses.{Ends, done_of, memory_of};
ghost use Rattle.z80_exec.specs.Rows.Bits as bits;

use crate::access::operands::fetch;
use crate::{Context, Progress80, Regs80, Waiting};
use z80_alu::compute;
use z80_decode::{Bit, Place8, Task80};

/// BIT. The error is the access that waits for its answer.
#[tactic(auto, unfolding(crate::specs::Rows::Bits::test_bit))]
pub fn test_bit(
    bit: Bit,
    place: Place8,
    context: &Context,
    regs: &mut Regs80,
    progress: &mut Progress80,
) -> Result<bool, Waiting>
    ensures { Ends result regs.new (done_of progress.new) (bits.test_bit bit place regs.old (memory_of context.now) (done_of progress.old)) }
{
    let value = fetch(place, context, regs, progress)?;
    let out = compute(Task80::Test(bit), regs.a(), value, regs.f());
    regs.set_f(out.f);
    Ok(false)
}

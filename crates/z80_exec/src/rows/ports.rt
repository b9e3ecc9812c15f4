ghost use Rattle.std.specs.Prelude.{◌≡◌, ◌+◌, ◌≤◌};
ghost use Rattle.arrayvec.specs.ArrayVec.{array_vec_len};
ghost use Rattle.z80_exec.specs.Access.Clauses.{Ends, done_of, memory_of};
ghost use Rattle.z80_exec.specs.Rows.Ports as ports;

use crate::access::operands::put;
use crate::access::{read, write};
use crate::regs80::{high, with_high, with_low};
use crate::rows::blocks::{go_on, repeats, stepped};
use crate::{Context, Progress80, Regs80, Waiting};
use z80_alu::{block_passed, compute};
use z80_decode::{Block, Place8, Task80};

/// What a port gives: none answers.
const PORT_BYTE: u8 = 0xff;

/// IN A,(n).
#[tactic(auto, unfolding(crate::specs::Rows::Ports::input_at_number))]
pub fn input_at_number(regs: &mut Regs80)
    ensures { regs.new ≡ ports.input_at_number regs.old }
{
    let f = regs.f();
    regs.set_af(PORT_BYTE, f);
}

/// IN r,(C). The error is the access that waits for its answer.
#[tactic(auto, unfolding(crate::specs::Rows::Ports::input))]
pub fn input(
    place: Place8,
    context: &Context,
    regs: &mut Regs80,
    progress: &mut Progress80,
) -> Result<bool, Waiting>
    requires { array_vec_len progress.old.writes + 1 ≤ 4 }
    ensures { Ends result regs.new (done_of progress.new) (ports.input place regs.old (memory_of context.now) (done_of progress.old)) }
{
    let out = compute(Task80::In, regs.a(), PORT_BYTE, regs.f());
    put(place, out.value, context, regs, progress)?;
    regs.set_f(out.f);
    Ok(false)
}

/// The registers after one byte, with B lowered by 1.
fn pass(block: Block, regs: &mut Regs80)
    ensures { regs.new ≡ ports.passed block regs.old }
{
    let counter = high(regs.bc).wrapping_sub(1);
    let f = block_passed(counter, regs.f());
    regs.hl = stepped(block, regs.hl);
    regs.bc = with_high(regs.bc, counter);
    regs.af = with_low(regs.af, f);
}

/// INI, IND, INIR, INDR. The error is the access that waits for its answer.
#[tactic(auto, unfolding(crate::specs::Rows::Ports::block_input))]
pub fn block_input(
    block: Block,
    context: &Context,
    regs: &mut Regs80,
    progress: &mut Progress80,
) -> Result<bool, Waiting>
    requires { array_vec_len progress.old.writes + 1 ≤ 4 }
    ensures { Ends result regs.new (done_of progress.new) (ports.block_input block regs.old (memory_of context.now) (done_of progress.old)) }
{
    write(regs.hl, PORT_BYTE, context, progress)?;
    let again = repeats(block) && high(regs.bc).wrapping_sub(1) != 0;
    pass(block, regs);
    Ok(go_on(again, regs))
}

/// OUTI, OUTD, OTIR, OTDR. The error is the access that waits for its answer.
#[tactic(auto, unfolding(crate::specs::Rows::Ports::block_output))]
pub fn block_output(
    block: Block,
    context: &Context,
    regs: &mut Regs80,
    progress: &mut Progress80,
) -> Result<bool, Waiting>
    ensures { Ends result regs.new (done_of progress.new) (ports.block_output block regs.old (memory_of context.now) (done_of progress.old)) }
{
    read(regs.hl, context, progress)?;
    let again = repeats(block) && high(regs.bc).wrapping_sub(1) != 0;
    pass(block, regs);
    Ok(go_on(again, regs))
}

ghost use Rattle.std.specs.Prelude.{◌≡◌, ◌+◌, ◌≤◌, ◌&&◌, ◌==◌, not};
ghost use Rattle.arrayvec.specs.ArrayVec.{array_vec_len};
ghost use Rattle.z80_exec.specs.Access.Clauses.{Ends, done_of, memory_of};
ghost use Rattle.z80_exec.specs.Access.Outcomes.{outcome_of};
ghost use Rattle.z80_exec.specs.Access.Parts.{down};
ghost use Rattle.z80_exec.specs.Rows.Blocks as blocks;

use crate::access::{read, write};
use crate::regs80::with_low;
use crate::{Context, Progress80, Regs80, Waiting};
use z80_alu::{block_compared, block_loaded};
use z80_decode::Block;

/// The next address, up or down.
pub fn stepped(block: Block, at: u16) -> u16
    ensures { result ≡ blocks.stepped block at }
{
    match block {
        Block::Increment | Block::IncrementRepeat => at.wrapping_add(1),
        Block::Decrement | Block::DecrementRepeat => at.wrapping_sub(1),
    }
}

/// Whether a block instruction repeats.
pub fn repeats(block: Block) -> bool
    ensures { result ≡ blocks.repeats block }
{
    matches!(block, Block::IncrementRepeat | Block::DecrementRepeat)
}

/// Has an instruction that continues be carried out again.
#[tactic(auto, unfolding(crate::specs::Rows::Blocks::going_on))]
pub fn go_on(again: bool, regs: &mut Regs80) -> bool
    ensures { outcome_of result regs.new ≡ blocks.going_on again regs.old }
{
    if again {
        regs.pc = regs.pc.wrapping_sub(2);
    }
    again
}

/// Whether LDIR or LDDR goes on after the byte that is transferred next.
pub fn continues(block: Block, regs: &Regs80) -> bool
    ensures { result ≡ (blocks.repeats block && not (down regs.now.bc == 0)) }
{
    repeats(block) && regs.bc.wrapping_sub(1) != 0
}

/// The registers after one transfer.
pub fn transfer(block: Block, regs: &mut Regs80)
    ensures { regs.new ≡ blocks.transferred block regs.old }
{
    let counter = regs.bc.wrapping_sub(1);
    let f = block_loaded(counter, regs.f());
    regs.hl = stepped(block, regs.hl);
    regs.de = stepped(block, regs.de);
    regs.bc = counter;
    regs.af = with_low(regs.af, f);
}

/// LDI, LDD, LDIR, LDDR. The error is the access that waits for its answer.
#[tactic(auto, unfolding(crate::specs::Rows::Blocks::block_load))]
pub fn block_load(
    block: Block,
    context: &Context,
    regs: &mut Regs80,
    progress: &mut Progress80,
) -> Result<bool, Waiting>
    requires { array_vec_len progress.old.writes + 1 ≤ 4 }
    ensures { Ends result regs.new (done_of progress.new) (blocks.block_load block regs.old (memory_of context.now) (done_of progress.old)) }
{
    let value = read(regs.hl, context, progress)?;
    write(regs.de, value, context, progress)?;
    let again = continues(block, regs);
    transfer(block, regs);
    Ok(go_on(again, regs))
}

/// The registers after one comparison with A.
fn search(block: Block, value: u8, regs: &mut Regs80)
    ensures { regs.new ≡ blocks.searched block value regs.old }
{
    let counter = regs.bc.wrapping_sub(1);
    let f = block_compared(regs.a(), value, counter, regs.f());
    regs.hl = stepped(block, regs.hl);
    regs.bc = counter;
    regs.af = with_low(regs.af, f);
}

/// CPI, CPD, CPIR, CPDR. The error is the access that waits for its answer.
#[tactic(auto, unfolding(crate::specs::Rows::Blocks::block_compare))]
pub fn block_compare(
    block: Block,
    context: &Context,
    regs: &mut Regs80,
    progress: &mut Progress80,
) -> Result<bool, Waiting>
    ensures { Ends result regs.new (done_of progress.new) (blocks.block_compare block regs.old (memory_of context.now) (done_of progress.old)) }
{
    let value = read(regs.hl, context, progress)?;
    let again = repeats(block) && regs.bc.wrapping_sub(1) != 0 && regs.a() != value;
    search(block, value, regs);
    Ok(go_on(again, regs))
}

ghost use Rattle.std.specs.Prelude.{◌≡◌, ◌+◌, ◌≤◌};
ghost use Rattle.arrayvec.specs.ArrayVec.{array_vec_len};
ghost use Rattle.z80_exec.specs.Access.Clauses.{Ends, done_of, memory_of};
ghost use Rattle.z80_exec.specs.Rows.Exchanges as exchanges;

use crate::access::{read, write};
use crate::regs80::{high, low, pair_at};
use crate::{Context, Progress80, Regs80, Waiting};
use z80_decode::Index;

/// EX DE,HL.
#[tactic(auto, unfolding(crate::specs::Rows::Exchanges::exchange_de_hl))]
pub fn exchange_de_hl(regs: &mut Regs80)
    ensures { regs.new ≡ exchanges.exchange_de_hl regs.old }
{
    let de = regs.de;
    regs.de = regs.hl;
    regs.hl = de;
}

/// EX AF,AF'.
#[tactic(auto, unfolding(crate::specs::Rows::Exchanges::exchange_af))]
pub fn exchange_af(regs: &mut Regs80)
    ensures { regs.new ≡ exchanges.exchange_af regs.old }
{
    let af = regs.af;
    regs.af = regs.af2;
    regs.af2 = af;
}

/// EXX.
#[tactic(auto, unfolding(crate::specs::Rows::Exchanges::exchange_all))]
pub fn exchange_all(regs: &mut Regs80)
    ensures { regs.new ≡ exchanges.exchange_all regs.old }
{
    let (bc, de, hl) = (regs.bc, regs.de, regs.hl);
    regs.bc = regs.bc2;
    regs.de = regs.de2;
    regs.hl = regs.hl2;
    regs.bc2 = bc;
    regs.de2 = de;
    regs.hl2 = hl;
}

/// EX (SP),HL. The error is the access that waits for its answer.
#[tactic(auto, unfolding(crate::specs::Rows::Exchanges::exchange_stack))]
pub fn exchange_stack(
    index: Index,
    context: &Context,
    regs: &mut Regs80,
    progress: &mut Progress80,
) -> Result<bool, Waiting>
    requires { array_vec_len progress.old.writes + 2 ≤ 4 }
    ensures { Ends result regs.new (done_of progress.new) (exchanges.exchange_stack index regs.old (memory_of context.now) (done_of progress.old)) }
{
    let pair = pair_at(index);
    let value = regs.pair(pair);
    let above = regs.sp.wrapping_add(1);
    let low_byte = read(regs.sp, context, progress)?;
    let high_byte = read(above, context, progress)?;
    write(above, high(value), context, progress)?;
    write(regs.sp, low(value), context, progress)?;
    regs.set_pair(pair, u16::from(high_byte) * 0x100 + u16::from(low_byte));
    Ok(false)
}

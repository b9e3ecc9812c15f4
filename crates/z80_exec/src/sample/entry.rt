ghost use Rattle.std.specs.Prelude.{◌+◌, ◌≤◌};
ghost use Rattle.arrayvec.specs.ArrayVec.{array_vec_len};
ghost use Rattle.z80_exec.specs.Access.Clauses.{Leaves, Meets, done_of, memory_of};
ghost use Rattle.z80_exec.specs.Sample.Entries as entries;

use crate::access::operands::push;
use crate::access::read_word;
use crate::rows::control::disable;
use crate::{Context, Progress80, Regs80, Waiting};
use z80_decode::InterruptMode;

/// Where an interrupt continues in modes 0 and 1: the byte on the bus is FFh, which is RST 38h.
const RESTART: u16 = 0x38;

/// Where an interrupt continues, by its mode. The error is the shared read that waits, of mode 2.
#[tactic(auto, unfolding(crate::specs::Sample::Entries::target_of))]
fn target_of(
    mode: InterruptMode,
    page: u8,
    context: &Context,
    progress: &mut Progress80,
) -> Result<u16, Waiting>
    ensures { Meets result (done_of progress.new) (entries.target_of mode page (memory_of context.now) (done_of progress.old)) }
{
    match mode {
        InterruptMode::Mode0 | InterruptMode::Mode1 => Ok(RESTART),
        InterruptMode::Mode2 => read_word(u16::from(page) * 0x100 + 0xff, context, progress),
    }
}

/// Begins an interrupt. The error is the access that waits for its answer.
#[tactic(auto, unfolding(crate::specs::Sample::Entries::enter))]
pub fn enter(context: &Context, regs: &mut Regs80, progress: &mut Progress80) -> Result<(), Waiting>
    requires { array_vec_len progress.old.writes + 2 ≤ 4 }
    ensures { Leaves result regs.new (done_of progress.new) (entries.enter regs.old (memory_of context.now) (done_of progress.old)) }
{
    let Regs80 { pc, i, mode, .. } = *regs;
    disable(regs);
    push(pc, context, regs, progress)?;
    regs.pc = target_of(mode, i, context, progress)?;
    Ok(())
}

ghost use Rattle.std.specs.Prelude.{◌≡◌, ◌+◌, ◌<◌, ◌≤◌};
ghost use Rattle.arrayvec.specs.ArrayVec.{array_vec_len};
ghost use Rattle.md_word.specs.Modes.{IsMode};
ghost use Rattle.md_word.specs.declared.size.Size.TheVariants.{Byte};
ghost use Rattle.m68k_access.specs.Clauses.{Ends, done_of, memory_of};
ghost use Rattle.m68k_exec.specs.Rows.Setting as setting;

use crate::{Context, Outcome, Progress, Stop};
use m68k_access::conditions::holds;
use m68k_access::operands::{fetch, locate, put, step};
use m68k_decode::Condition;
use md_word::{Mode, Regs, Size};

/// All ones, or 0.
fn byte_by(met: bool) -> u32
    ensures value { result ≡ setting.byte_by met }
    ensures below { result < 0x100 }
{
    if met { 0xff } else { 0 }
}

/// Scc: reads a byte in memory before it is written.
#[tactic(auto, unfolding(crate::specs::Rows::Setting::scc))]
pub fn scc(
    condition: Condition,
    mode: Mode,
    start: u32,
    context: &Context,
    regs: &mut Regs,
    progress: &mut Progress,
) -> Result<Outcome, Stop>
    requires mode { IsMode mode }
    requires fresh { array_vec_len progress.old.writes ≡ 0 }
    ensures value { Ends result regs.new (done_of progress.new) (setting.scc condition mode start regs.old (memory_of context.now) (done_of progress.old)) }
    ensures written { array_vec_len progress.new.writes ≤ array_vec_len progress.old.writes + 1 }
{
    let to = locate(mode, Size::Byte, start.wrapping_add(2), regs);
    let met = holds(condition, regs.flags());
    step(mode, Size::Byte, regs);
    fetch(Size::Byte, to, context, regs, progress)?;
    put(Size::Byte, to, byte_by(met), context, regs, progress)?;
    Ok(Outcome {
        taken: met,
        ..Outcome::plain()
    })
}

ghost use Rattle.m68k_access.specs.Outcomes.{outcome_of};
ghost use Rattle.std.specs.Prelude.{◌≡◌, ◌+◌, ◌<◌, ◌≤◌};
ghost use Rattle.arrayvec.specs.ArrayVec.{array_vec_len};
ghost use Rattle.md_word.specs.Modes.{IsMode};
ghost use Rattle.m68k_access.specs.Clauses.{Ends, done_of, memory_of};
ghost use Rattle.m68k_exec.specs.Rows.Links as links;

use crate::{Context, Outcome, Progress, Stop};
use m68k_access::operands::{effective, pull, push};
use md_word::{Mode, Regs, Size, extend};

/// The number of the active stack pointer, A7.
const STACK: u8 = 7;

/// LEA.
#[tactic(auto, unfolding(crate::specs::Rows::Links::lea))]
pub fn lea(number: u8, mode: Mode, start: u32, regs: &mut Regs) -> Outcome
    requires number { number < 8 }
    requires mode { IsMode mode }
    ensures { outcome_of result regs.new ≡ links.lea number mode start regs.old }
{
    let address = effective(mode, Size::Long, start.wrapping_add(2), regs);
    regs.set_address(number, address);
    Outcome::plain()
}

/// PEA.
#[tactic(auto, unfolding(crate::specs::Rows::Links::pea))]
pub fn pea(
    mode: Mode,
    start: u32,
    context: &Context,
    regs: &mut Regs,
    progress: &mut Progress,
) -> Result<Outcome, Stop>
    requires mode { IsMode mode }
    requires fresh { array_vec_len progress.old.writes ≡ 0 }
    ensures value { Ends result regs.new (done_of progress.new) (links.pea mode start regs.old (memory_of context.now) (done_of progress.old)) }
    ensures written { array_vec_len progress.new.writes ≤ array_vec_len progress.old.writes + 4 }
{
    let address = effective(mode, Size::Long, start.wrapping_add(2), regs);
    push(Size::Long, address, context, regs, progress)?;
    Ok(Outcome::plain())
}

/// The registers with the stack pointer lowered for a long.
fn lowered(regs: &Regs) -> Regs
    ensures { result ≡ links.lowered regs.now }
{
    let mut after = *regs;
    after.set_address(STACK, regs.address(STACK).wrapping_sub(4));
    after
}

/// LINK: An is pushed, An becomes the stack pointer, and the displacement is added to that. Of A7
/// the lowered value is pushed.
#[tactic(auto, unfolding(crate::specs::Rows::Links::link))]
pub fn link(
    number: u8,
    by: u16,
    context: &Context,
    regs: &mut Regs,
    progress: &mut Progress,
) -> Result<Outcome, Stop>
    requires number { number < 8 }
    requires fresh { array_vec_len progress.old.writes ≡ 0 }
    ensures value { Ends result regs.new (done_of progress.new) (links.link number by regs.old (memory_of context.now) (done_of progress.old)) }
    ensures written { array_vec_len progress.new.writes ≤ array_vec_len progress.old.writes + 4 }
{
    let saved = lowered(regs).address(number);
    push(Size::Long, saved, context, regs, progress)?;
    let frame = regs.address(STACK);
    regs.set_address(number, frame);
    let offset = extend(u32::from(by), Size::Word);
    let stack = regs.address(STACK);
    regs.set_address(STACK, stack.wrapping_add(offset));
    Ok(Outcome::plain())
}

/// UNLK: the stack pointer becomes An, and An is pulled.
#[tactic(auto, unfolding(crate::specs::Rows::Links::unlk))]
pub fn unlk(
    number: u8,
    context: &Context,
    regs: &mut Regs,
    progress: &mut Progress,
) -> Result<Outcome, Stop>
    requires { number < 8 }
    ensures value { Ends result regs.new (done_of progress.new) (links.unlk number regs.old (memory_of context.now) (done_of progress.old)) }
    ensures written { array_vec_len progress.new.writes ≤ array_vec_len progress.old.writes }
{
    let frame = regs.address(number);
    regs.set_address(STACK, frame);
    let old = pull(Size::Long, context, regs, progress)?;
    regs.set_address(number, old);
    Ok(Outcome::plain())
}

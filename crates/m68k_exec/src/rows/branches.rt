ghost use Rattle.m68k_access.specs.Outcomes.{outcome_of};
ghost use Rattle.std.specs.Prelude.{◌≡◌, ◌<◌, ◌+◌, ◌≤◌};
ghost use Rattle.arrayvec.specs.ArrayVec.{array_vec_len};
ghost use Rattle.m68k_exec.specs.Rows.Branches as branches;
ghost use Rattle.m68k_access.specs.Clauses.{Ends, done_of, memory_of};

use crate::{Context, Outcome, Progress, Stop};
use m68k_access::conditions::holds;
use m68k_access::operands::push;
use m68k_access::shapes::jump_to;
use m68k_decode::{Condition, Displacement};
use md_word::{Regs, Size, extend};

/// A displacement with its sign extended.
fn distance_of(displacement: Displacement) -> u32
    ensures { result ≡ branches.distance_of displacement }
{
    match displacement {
        Displacement::Byte(by) => extend(u32::from(by), Size::Byte),
        Displacement::Word(by) => extend(u32::from(by), Size::Word),
    }
}

/// A branch so far from the address after the instruction's first word.
#[tactic(auto, unfolding(crate::specs::Rows::Branches::branched))]
fn branched(distance: u32, start: u32, regs: &mut Regs) -> Outcome
    ensures { outcome_of result regs.new ≡ branches.branched distance start regs.old }
{
    let target = start.wrapping_add(2).wrapping_add(distance);
    Outcome {
        taken: true,
        ..jump_to(target, regs)
    }
}

/// BRA.
#[tactic(auto, unfolding(crate::specs::Rows::Branches::bra))]
pub fn bra(displacement: Displacement, start: u32, regs: &mut Regs) -> Outcome
    ensures { outcome_of result regs.new ≡ branches.bra displacement start regs.old }
{
    branched(distance_of(displacement), start, regs)
}

/// BSR.
#[tactic(auto, unfolding(crate::specs::Rows::Branches::bsr))]
pub fn bsr(
    displacement: Displacement,
    start: u32,
    context: &Context,
    regs: &mut Regs,
    progress: &mut Progress,
) -> Result<Outcome, Stop>
    requires fresh { array_vec_len progress.old.writes ≡ 0 }
    ensures value { Ends result regs.new (done_of progress.new) (branches.bsr displacement start regs.old (memory_of context.now) (done_of progress.old)) }
    ensures written { array_vec_len progress.new.writes ≤ array_vec_len progress.old.writes + 4 }
{
    push(Size::Long, regs.pc, context, regs, progress)?;
    Ok(branched(distance_of(displacement), start, regs))
}

/// Bcc.
#[tactic(auto, unfolding(crate::specs::Rows::Branches::bcc))]
pub fn bcc(condition: Condition, displacement: Displacement, start: u32, regs: &mut Regs) -> Outcome
    ensures { outcome_of result regs.new ≡ branches.bcc condition displacement start regs.old }
{
    if holds(condition, regs.flags()) {
        branched(distance_of(displacement), start, regs)
    } else {
        Outcome::plain()
    }
}

/// DBcc once its condition is false: counts, and branches until the counter is −1.
#[tactic(auto, unfolding(crate::specs::Rows::Branches::counted))]
fn counted(number: u8, by: u16, start: u32, regs: &mut Regs) -> Outcome
    requires { number < 8 }
    ensures { outcome_of result regs.new ≡ branches.counted number by start regs.old }
{
    let old = regs.register(number);
    let counter = Size::Word.low(old.wrapping_sub(1));
    regs.set_register(number, Size::Word.merge(old, counter));
    if counter == 0xffff {
        Outcome {
            expired: true,
            ..Outcome::plain()
        }
    } else {
        branched(extend(u32::from(by), Size::Word), start, regs)
    }
}

/// DBcc.
#[tactic(auto, unfolding(crate::specs::Rows::Branches::dbcc))]
pub fn dbcc(condition: Condition, number: u8, by: u16, start: u32, regs: &mut Regs) -> Outcome
    requires { number < 8 }
    ensures { outcome_of result regs.new ≡ branches.dbcc condition number by start regs.old }
{
    let met = holds(condition, regs.flags());
    if met {
        Outcome::plain()
    } else {
        counted(number, by, start, regs)
    }
}

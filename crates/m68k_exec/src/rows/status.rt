ghost use Rattle.m68k_access.specs.Outcomes.{outcome_of};
ghost use Rattle.std.specs.Prelude.{◌≡◌, ◌+◌, ◌*◌, ◌<◌, ◌≤◌};
ghost use Rattle.arrayvec.specs.ArrayVec.{array_vec_len};
ghost use Rattle.md_word.specs.Modes.{IsMode};
ghost use Rattle.md_word.specs.declared.size.Size.TheVariants.{Word};
ghost use Rattle.m68k_access.specs.Clauses.{Ends, done_of, memory_of};
ghost use Rattle.m68k_exec.specs.Rows.Status as status;

use crate::{Context, Outcome, Progress, Stop};
use m68k_access::operands::{fetch, load, locate, put, step};
use m68k_access::shapes::refuse;
use m68k_access::vector::PRIVILEGE_VIOLATION;
use md_word::{Mode, Regs, Size};

/// The bits that the status register has.
const STATUS_BITS: u16 = 0xa71f;

/// Sets the status register, of which only the bits that it has count.
pub fn set_sr(value: u16, regs: &mut Regs)
    ensures { regs.new ≡ status.with_sr value regs.old }
{
    regs.sr = value & STATUS_BITS;
}

/// Sets the condition codes, of which five bits count.
pub fn set_ccr(value: u16, regs: &mut Regs)
    ensures { regs.new ≡ status.with_ccr value regs.old }
{
    let sr = regs.sr;
    regs.sr = sr / 0x100 * 0x100 + value % 0x20;
}

/// MOVE from SR, which reads its target before it writes it, and is not privileged.
#[tactic(auto, unfolding(crate::specs::Rows::Status::move_from_sr))]
pub fn move_from_sr(
    mode: Mode,
    start: u32,
    context: &Context,
    regs: &mut Regs,
    progress: &mut Progress,
) -> Result<Outcome, Stop>
    requires mode { IsMode mode }
    requires fresh { array_vec_len progress.old.writes ≡ 0 }
    ensures value { Ends result regs.new (done_of progress.new) (status.move_from_sr mode start regs.old (memory_of context.now) (done_of progress.old)) }
    ensures written { array_vec_len progress.new.writes ≤ array_vec_len progress.old.writes + 2 }
{
    let sr = u32::from(regs.sr);
    let to = locate(mode, Size::Word, start.wrapping_add(2), regs);
    step(mode, Size::Word, regs);
    fetch(Size::Word, to, context, regs, progress)?;
    put(Size::Word, to, sr, context, regs, progress)?;
    Ok(Outcome::plain())
}

/// MOVE to CCR.
#[tactic(auto, unfolding(crate::specs::Rows::Status::move_to_ccr))]
pub fn move_to_ccr(
    mode: Mode,
    start: u32,
    context: &Context,
    regs: &mut Regs,
    progress: &mut Progress,
) -> Result<Outcome, Stop>
    requires { IsMode mode }
    ensures value { Ends result regs.new (done_of progress.new) (status.move_to_ccr mode start regs.old (memory_of context.now) (done_of progress.old)) }
    ensures written { array_vec_len progress.new.writes ≤ array_vec_len progress.old.writes }
{
    let operand = load(
        mode,
        Size::Word,
        start.wrapping_add(2),
        context,
        regs,
        progress,
    )?;
    set_ccr(operand as u16, regs);
    Ok(Outcome::plain())
}

/// MOVE to SR in supervisor mode.
#[tactic(auto, unfolding(crate::specs::Rows::Status::load_sr))]
fn load_sr(
    mode: Mode,
    start: u32,
    context: &Context,
    regs: &mut Regs,
    progress: &mut Progress,
) -> Result<Outcome, Stop>
    requires { IsMode mode }
    ensures value { Ends result regs.new (done_of progress.new) (status.load_sr mode start regs.old (memory_of context.now) (done_of progress.old)) }
    ensures written { array_vec_len progress.new.writes ≤ array_vec_len progress.old.writes }
{
    let operand = load(
        mode,
        Size::Word,
        start.wrapping_add(2),
        context,
        regs,
        progress,
    )?;
    set_sr(operand as u16, regs);
    Ok(Outcome::plain())
}

/// MOVE to SR, which reads nothing in user mode.
#[tactic(auto, unfolding(crate::specs::Rows::Status::move_to_sr))]
pub fn move_to_sr(
    mode: Mode,
    start: u32,
    context: &Context,
    regs: &mut Regs,
    progress: &mut Progress,
) -> Result<Outcome, Stop>
    requires { IsMode mode }
    ensures value { Ends result regs.new (done_of progress.new) (status.move_to_sr mode start regs.old (memory_of context.now) (done_of progress.old)) }
    ensures written { array_vec_len progress.new.writes ≤ array_vec_len progress.old.writes }
{
    if regs.is_supervisor() {
        load_sr(mode, start, context, regs, progress)
    } else {
        Ok(refuse(PRIVILEGE_VIOLATION, start, regs))
    }
}

/// MOVE An,USP, which is privileged.
#[tactic(auto, unfolding(crate::specs::Rows::Status::move_to_usp))]
pub fn move_to_usp(number: u8, start: u32, regs: &mut Regs) -> Outcome
    requires { number < 8 }
    ensures { outcome_of result regs.new ≡ status.move_to_usp number start regs.old }
{
    if regs.is_supervisor() {
        regs.usp = regs.address(number);
        Outcome::plain()
    } else {
        refuse(PRIVILEGE_VIOLATION, start, regs)
    }
}

/// MOVE USP,An, which is privileged.
#[tactic(auto, unfolding(crate::specs::Rows::Status::move_from_usp))]
pub fn move_from_usp(number: u8, start: u32, regs: &mut Regs) -> Outcome
    requires { number < 8 }
    ensures { outcome_of result regs.new ≡ status.move_from_usp number start regs.old }
{
    if regs.is_supervisor() {
        let usp = regs.usp;
        regs.set_address(number, usp);
        Outcome::plain()
    } else {
        refuse(PRIVILEGE_VIOLATION, start, regs)
    }
}

/// STOP, which is privileged by the old status register.
#[tactic(auto, unfolding(crate::specs::Rows::Status::stop))]
pub fn stop(value: u16, start: u32, regs: &mut Regs) -> Outcome
    ensures { outcome_of result regs.new ≡ status.stop value start regs.old }
{
    if regs.is_supervisor() {
        set_sr(value, regs);
        Outcome {
            stopped: true,
            ..Outcome::plain()
        }
    } else {
        refuse(PRIVILEGE_VIOLATION, start, regs)
    }
}

/// RESET, which is privileged, and which nothing on this board hears.
#[tactic(auto, unfolding(crate::specs::Rows::Status::reset))]
pub fn reset(start: u32, regs: &mut Regs) -> Outcome
    ensures { outcome_of result regs.new ≡ status.reset start regs.old }
{
    if regs.is_supervisor() {
        Outcome::plain()
    } else {
        refuse(PRIVILEGE_VIOLATION, start, regs)
    }
}

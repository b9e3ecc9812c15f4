ghost use Rattle.std.specs.Prelude.{◌≡◌, ◌+◌, ◌<◌, ◌≤◌, ℕ, false, true, Ok, length};
ghost use Rattle.arrayvec.specs.ArrayVec.{array_vec_len};
ghost use Rattle.md_word.specs.Modes.{IsMode};
ghost use Rattle.md_word.specs.Fields.{with_flags};
ghost use Rattle.md_word.specs.Width.{modulus_of};
ghost use Rattle.m68k_ea.specs.Steps.{stepped};
ghost use Rattle.m68k_access.specs.Operands as operands;
ghost use Rattle.m68k_access.specs.Actions as actions;
ghost use Rattle.m68k_access.specs.Clauses.{Ends, Leaves, Meets, done_of, memory_of};
ghost use Rattle.m68k_exec.specs.Sample.Prediction.{Predicts, WaitsForLast};
ghost use Rattle.m68k_decode.specs.Ops as ops;
ghost use Rattle.m68k_exec.specs.Rows.Moves as moves;

use crate::{Context, Outcome, Predicted, Progress, Stop};
use m68k_access::accesses::write;
use m68k_access::operands::{load, locate, put, step};
use m68k_alu::compute;
use m68k_ea::Place;
use md_word::{Flags, Mode, Regs, Size, Task, extend};

/// Where the target's words are: after the source's.
#[inline(always)]
pub fn after_source(size: Size, source: Mode, start: u32) -> u32
    ensures { result ≡ moves.after_source size source start }
{
    match source {
        Mode::Data(_) | Mode::Address(_) | Mode::Indirect(_) => start.wrapping_add(2),
        Mode::PostInc(_) | Mode::PreDec(_) => start.wrapping_add(2),
        Mode::Displaced(..) | Mode::Indexed(..) | Mode::AbsShort(_) => start.wrapping_add(4),
        Mode::PcDisplaced(_) | Mode::PcIndexed(..) => start.wrapping_add(4),
        Mode::AbsLong(_) => start.wrapping_add(6),
        Mode::Immediate(_) => match size {
            Size::Byte | Size::Word => start.wrapping_add(4),
            Size::Long => start.wrapping_add(6),
        },
    }
}

/// Whether an operand that is written after so many answers waits for its last, where there are `count`.
#[inline(always)]
fn waits_for_last(size: Size, used: usize, count: usize) -> bool
    ensures { result ≡ true → used + ops.moves_of size ≡ count + 1 }
{
    match size {
        Size::Byte | Size::Word => used == count,
        Size::Long => used < count && used + 1 == count,
    }
}

/// Writes the result of MOVE into memory. Where the last access of that waits, the registers after the
/// instruction are predicted: those given, with its flags.
#[inline(always)]
#[tactic(auto, using(crate::proofs::Prediction::nothing_waits))]
fn write_last(
    size: Size,
    address: u32,
    value: u32,
    flags: Flags,
    context: &Context,
    regs: &Regs,
    progress: &mut Progress,
    predicted: &mut Predicted,
) -> Result<(), Stop>
    requires value { value < modulus_of size }
    requires fresh { array_vec_len progress.old.writes ≡ 0 }
    requires nothing { predicted.old.known ≡ false }
    ensures value { Meets result (done_of progress.new) (actions.write size address value (memory_of context.now) (done_of progress.old)) }
    ensures written { array_vec_len progress.new.writes ≤ array_vec_len progress.old.writes + 4 }
    ensures predicted { WaitsForLast result predicted.new (with_flags regs.now flags) (actions.write size address value) tt (memory_of context.now) (done_of progress.old) }
{
    let last = waits_for_last(size, progress.used, context.answers.len());
    match write(size, address, value, context, progress) {
        Ok(()) => Ok(()),
        Err(Stop::Ask(request)) => {
            if last {
                predicted.known = true;
                predicted.regs = *regs;
                predicted.regs.set_flags(flags);
            }
            Err(Stop::Ask(request))
        }
        Err(stop) => Err(stop),
    }
}

/// Writes the result of MOVE where a mode names, and moves the register of (An)+ or −(An). Where the last
/// access of that waits, the registers after the instruction are predicted.
#[inline(always)]
#[tactic(auto, using(crate::proofs::Prediction::nothing_waits), unfolding(m68k_access::specs::Operands::store, m68k_access::specs::Operands::put, m68k_access::specs::Operands::stored))]
pub fn store_last(
    mode: Mode,
    size: Size,
    value: u32,
    flags: Flags,
    pc: u32,
    context: &Context,
    regs: &mut Regs,
    progress: &mut Progress,
    predicted: &mut Predicted,
) -> Result<(), Stop>
    requires mode { IsMode mode }
    requires value { value < modulus_of size }
    requires fresh { array_vec_len progress.old.writes ≡ 0 }
    requires nothing { predicted.old.known ≡ false }
    ensures value { Leaves result regs.new (done_of progress.new) (operands.store mode size value pc regs.old (memory_of context.now) (done_of progress.old)) }
    ensures written { array_vec_len progress.new.writes ≤ array_vec_len progress.old.writes + 4 }
    ensures predicted { WaitsForLast result predicted.new (with_flags (stepped mode size regs.old) flags) (operands.store mode size value pc regs.old) (stepped mode size regs.old) (memory_of context.now) (done_of progress.old) }
{
    let to = locate(mode, size, pc, regs);
    step(mode, size, regs);
    match to {
        Place::Memory(address) => {
            write_last(
                size, address, value, flags, context, regs, progress, predicted,
            )
        }
        place => put(size, place, value, context, regs, progress),
    }
}

/// MOVE. The source is read, and its register moved, before the target's address is calculated.
#[inline(always)]
#[tactic(auto, using(crate::proofs::Prediction::nothing_predicted), unfolding(crate::specs::Rows::Moves::move_operand))]
pub fn move_operand(
    size: Size,
    source: Mode,
    target: Mode,
    start: u32,
    context: &Context,
    regs: &mut Regs,
    progress: &mut Progress,
    predicted: &mut Predicted,
) -> Result<Outcome, Stop>
    requires source { IsMode source }
    requires target { IsMode target }
    requires fresh { array_vec_len progress.old.writes ≡ 0 }
    requires nothing { predicted.old.known ≡ false }
    ensures value { Ends result regs.new (done_of progress.new) (moves.move_operand size source target start regs.old (memory_of context.now) (done_of progress.old)) }
    ensures written { array_vec_len progress.new.writes ≤ array_vec_len progress.old.writes + 4 }
    ensures predicted { Predicts result predicted.new (moves.move_operand size source target start regs.old) (memory_of context.now) (done_of progress.old) }
{
    let flags = regs.flags();
    let from = load(source, size, start.wrapping_add(2), context, regs, progress)?;
    let out = compute(Task::Move, size, from, from, flags);
    let pc = after_source(size, source, start);
    match store_last(
        target, size, out.value, out.flags, pc, context, regs, progress, predicted,
    ) {
        Ok(()) => {
            regs.set_flags(out.flags);
            Ok(Outcome::plain())
        }
        Err(stop) => Err(stop),
    }
}

/// MOVEA: the sign is extended, and the flags stay.
#[tactic(auto, unfolding(crate::specs::Rows::Moves::move_address))]
pub fn move_address(
    size: Size,
    number: u8,
    mode: Mode,
    start: u32,
    context: &Context,
    regs: &mut Regs,
    progress: &mut Progress,
) -> Result<Outcome, Stop>
    requires number { number < 8 }
    requires mode { IsMode mode }
    ensures value { Ends result regs.new (done_of progress.new) (moves.move_address size number mode start regs.old (memory_of context.now) (done_of progress.old)) }
    ensures written { array_vec_len progress.new.writes ≤ array_vec_len progress.old.writes }
{
    let from = load(mode, size, start.wrapping_add(2), context, regs, progress)?;
    regs.set_address(number, extend(from, size));
    Ok(Outcome::plain())
}

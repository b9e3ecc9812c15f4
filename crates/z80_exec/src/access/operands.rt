ghost use Rattle.std.specs.Prelude.{◌≡◌, ◌+◌, ◌≤◌};
ghost use Rattle.arrayvec.specs.ArrayVec.{array_vec_len};
ghost use Rattle.z80_exec.specs.Access.Clauses.{Leaves, Meets, Pops, done_of, memory_of};
ghost use Rattle.z80_exec.specs.Access.Operands as operands;

use crate::access::{read, read_word, write};
use crate::regs80::{displaced, high, low};
use crate::{Context, Progress80, Regs80, Waiting};
use z80_decode::Place8;

/// The address of a place in memory; None where the place is a register or in the instruction.
#[tactic(auto, unfolding(crate::specs::Access::Operands::address_of))]
pub fn address(place: Place8, regs: &Regs80) -> Option<u16>
    ensures { result ≡ operands.address_of place regs.now }
{
    match place {
        Place8::AtBc => Some(regs.bc),
        Place8::AtDe => Some(regs.de),
        Place8::AtHl => Some(regs.hl),
        Place8::AtIx(distance) => Some(displaced(regs.ix, distance)),
        Place8::AtIy(distance) => Some(displaced(regs.iy, distance)),
        Place8::At(at) => Some(at),
        _ => None,
    }
}

/// Reads an operand: the byte in memory, the register or the number.
/// The error is the access that waits for its answer.
#[tactic(auto, unfolding(crate::specs::Access::Operands::fetch))]
pub fn fetch(
    place: Place8,
    context: &Context,
    regs: &Regs80,
    progress: &mut Progress80,
) -> Result<u8, Waiting>
    ensures value { Meets result (done_of progress.new) (operands.fetch place regs.now (memory_of context.now) (done_of progress.old)) }
    ensures written { array_vec_len progress.new.writes ≤ array_vec_len progress.old.writes }
{
    match address(place, regs) {
        Some(at) => read(at, context, progress),
        None => Ok(regs.byte(place)),
    }
}

/// Puts a byte in its place. The error is the access that waits for its answer.
#[tactic(auto, unfolding(crate::specs::Access::Operands::put, crate::specs::Access::Operands::put_memory))]
pub fn put(
    place: Place8,
    value: u8,
    context: &Context,
    regs: &mut Regs80,
    progress: &mut Progress80,
) -> Result<(), Waiting>
    requires { array_vec_len progress.old.writes + 1 ≤ 4 }
    ensures value { Leaves result regs.new (done_of progress.new) (operands.put place value regs.old (memory_of context.now) (done_of progress.old)) }
{
    match address(place, regs) {
        Some(at) => write(at, value, context, progress),
        None => {
            regs.set_byte(place, value);
            Ok(())
        }
    }
}

/// Pushes a word: its high byte below the stack pointer, and its low byte below that.
/// The error is the access that waits for its answer.
#[tactic(auto, unfolding(crate::specs::Access::Operands::push))]
pub fn push(
    value: u16,
    context: &Context,
    regs: &mut Regs80,
    progress: &mut Progress80,
) -> Result<(), Waiting>
    requires { array_vec_len progress.old.writes + 2 ≤ 4 }
    ensures value { Leaves result regs.new (done_of progress.new) (operands.push value regs.old (memory_of context.now) (done_of progress.old)) }
{
    let above = regs.sp.wrapping_sub(1);
    let below = above.wrapping_sub(1);
    write(above, high(value), context, progress)?;
    write(below, low(value), context, progress)?;
    regs.sp = below;
    Ok(())
}

/// Pops a word: its low byte where the stack pointer points to, and its high byte above that.
/// The error is the access that waits for its answer.
#[tactic(auto, unfolding(crate::specs::Access::Operands::pop))]
pub fn pop(context: &Context, regs: &mut Regs80, progress: &mut Progress80) -> Result<u16, Waiting>
    ensures value { Pops result regs.new (done_of progress.new) (operands.pop regs.old (memory_of context.now) (done_of progress.old)) }
{
    let value = read_word(regs.sp, context, progress)?;
    regs.sp = regs.sp.wrapping_add(2);
    Ok(value)
}

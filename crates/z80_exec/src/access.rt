ghost use Rattle.std.specs.Prelude.{◌≡◌, ◌+◌, ◌≤◌};
ghost use Rattle.arrayvec.specs.ArrayVec.{array_vec_len};
ghost use Rattle.z80_exec.specs.Access.Actions as actions;
ghost use Rattle.z80_exec.specs.Access.Clauses.{Meets, done_of, memory_of, request_of};

pub mod conditions;
pub mod memory;
pub mod operands;
pub mod view;
pub mod waiting;

use crate::access::memory::{byte_seen, is_shared_read, is_shared_write, put_byte};
use crate::regs80::{high, low};
use crate::{Context, Progress80, Waiting};

/// A shared access: takes the next answer. The error is the access that waits where there is none.
#[tactic(auto, unfolding(crate::specs::Access::Actions::asked))]
fn ask(waiting: Waiting, context: &Context, progress: &mut Progress80) -> Result<u8, Waiting>
    ensures value { Meets result (done_of progress.new) (actions.asked (request_of waiting) (memory_of context.now) (done_of progress.old)) }
    ensures written { array_vec_len progress.new.writes ≤ array_vec_len progress.old.writes }
{
    if progress.used < context.answers.len() {
        let answer = context.answers[progress.used];
        progress.used += 1;
        Ok(answer)
    } else {
        Err(waiting)
    }
}

/// A shared write, whose answer has no value. The error is the access that waits for it.
#[tactic(auto, unfolding(crate::specs::Access::Actions::reported))]
fn tell(waiting: Waiting, context: &Context, progress: &mut Progress80) -> Result<(), Waiting>
    ensures value { Meets result (done_of progress.new) (actions.reported (request_of waiting) (memory_of context.now) (done_of progress.old)) }
    ensures written { array_vec_len progress.new.writes ≤ array_vec_len progress.old.writes }
{
    ask(waiting, context, progress)?;
    Ok(())
}

/// Reads the byte at an address. The error is the access that waits for its answer.
#[tactic(auto, unfolding(crate::specs::Access::Actions::read))]
pub fn read(at: u16, context: &Context, progress: &mut Progress80) -> Result<u8, Waiting>
    ensures value { Meets result (done_of progress.new) (actions.read at (memory_of context.now) (done_of progress.old)) }
    ensures written { array_vec_len progress.new.writes ≤ array_vec_len progress.old.writes }
{
    if is_shared_read(at) {
        ask(Waiting::Read(at), context, progress)
    } else {
        Ok(byte_seen(at, context, progress))
    }
}

/// Writes the byte at an address. The error is the access that waits for its answer.
#[tactic(auto, unfolding(crate::specs::Access::Actions::write))]
pub fn write(
    at: u16,
    value: u8,
    context: &Context,
    progress: &mut Progress80,
) -> Result<(), Waiting>
    requires { array_vec_len progress.old.writes + 1 ≤ 4 }
    ensures value { Meets result (done_of progress.new) (actions.write at value (memory_of context.now) (done_of progress.old)) }
    ensures written { array_vec_len progress.new.writes ≤ array_vec_len progress.old.writes + 1 }
{
    if is_shared_write(at) {
        return tell(Waiting::Write(at, value), context, progress);
    }
    put_byte(at, value, progress);
    Ok(())
}

/// Reads the word at an address, its low byte first.
/// The error is the access that waits for its answer.
#[tactic(auto, unfolding(crate::specs::Access::Actions::read_word))]
pub fn read_word(at: u16, context: &Context, progress: &mut Progress80) -> Result<u16, Waiting>
    ensures value { Meets result (done_of progress.new) (actions.read_word at (memory_of context.now) (done_of progress.old)) }
    ensures written { array_vec_len progress.new.writes ≤ array_vec_len progress.old.writes }
{
    let low = read(at, context, progress)?;
    let high = read(at.wrapping_add(1), context, progress)?;
    Ok(u16::from(high) * 0x100 + u16::from(low))
}

/// Writes the word at an address, its low byte first.
/// The error is the access that waits for its answer.
#[tactic(auto, unfolding(crate::specs::Access::Actions::write_word))]
pub fn write_word(
    at: u16,
    value: u16,
    context: &Context,
    progress: &mut Progress80,
) -> Result<(), Waiting>
    requires { array_vec_len progress.old.writes + 2 ≤ 4 }
    ensures value { Meets result (done_of progress.new) (actions.write_word at value (memory_of context.now) (done_of progress.old)) }
{
    write(at, low(value), context, progress)?;
    write(at.wrapping_add(1), high(value), context, progress)
}

ghost use Rattle.std.specs.Prelude.{◌≡◌, ◌+◌, ◌%◌, ◌<◌, ◌≤◌, IfOk};
ghost use Rattle.arrayvec.specs.ArrayVec.{array_vec_len};
ghost use Rattle.md_word.specs.Width.{modulus_of};
ghost use Rattle.m68k_access.specs.Actions as actions;
ghost use Rattle.m68k_access.specs.Clauses.{Meets, NotOdd, SpendsAtMost, done_of, memory_of};
ghost use Rattle.m68k_access.specs.Operands.{bytes_of};

use crate::memory::{bus_address, byte_seen, put_byte, put_word, word_seen};
use crate::{Context, Progress, Stop};
use md_word::{Request68, Size, is_shared};

/// A shared access: takes the next answer, or stops with the request that waits for it.
#[tactic(auto, unfolding(crate::specs::Actions::asked))]
pub fn ask(request: Request68, context: &Context, progress: &mut Progress) -> Result<u16, Stop>
    ensures value { Meets result (done_of progress.new)
        (actions.asked request (memory_of context.now) (done_of progress.old)) }
    ensures spent { SpendsAtMost progress.old progress.new 1 0 }
    ensures never_odd { NotOdd result }
{
    if progress.used < context.answers.len() {
        let answer = context.answers[progress.used];
        progress.used += 1;
        Ok(answer)
    } else {
        Err(Stop::Ask(request))
    }
}

/// A shared read of a byte, whose answer has one byte.
#[tactic(auto, unfolding(crate::specs::Actions::asked_byte))]
fn ask_byte(at: u32, context: &Context, progress: &mut Progress) -> Result<u8, Stop>
    ensures value { Meets result (done_of progress.new)
        (actions.asked_byte at (memory_of context.now) (done_of progress.old)) }
    ensures written { array_vec_len progress.new.writes ≤ array_vec_len progress.old.writes }
{
    let answer = ask(Request68::Read8(at), context, progress)?;
    Ok((answer % 0x100) as u8)
}

/// A shared write, whose answer carries nothing.
#[tactic(auto, unfolding(crate::specs::Actions::reported))]
fn tell(request: Request68, context: &Context, progress: &mut Progress) -> Result<(), Stop>
    ensures value { Meets result (done_of progress.new)
        (actions.reported request (memory_of context.now) (done_of progress.old)) }
    ensures spent { SpendsAtMost progress.old progress.new 1 0 }
    ensures never_odd { NotOdd result }
{
    ask(request, context, progress)?;
    Ok(())
}

/// Reads the byte at an address. Stops where an access waits for its answer.
#[tactic(auto, unfolding(crate::specs::Actions::read_byte))]
pub fn read_byte(address: u32, context: &Context, progress: &mut Progress) -> Result<u8, Stop>
    ensures value { Meets result (done_of progress.new)
        (actions.read_byte address (memory_of context.now) (done_of progress.old)) }
    ensures written { array_vec_len progress.new.writes ≤ array_vec_len progress.old.writes }
{
    let at = bus_address(address);
    if is_shared(at) {
        ask_byte(at, context, progress)
    } else {
        Ok(byte_seen(at, context, progress))
    }
}

/// Reads the word at an even address on the bus.
#[inline(always)]
#[tactic(auto, unfolding(crate::specs::Actions::read_aligned))]
fn read_aligned(at: u32, context: &Context, progress: &mut Progress) -> Result<u16, Stop>
    requires { at < 0x100_0000 }
    ensures value { Meets result (done_of progress.new)
        (actions.read_aligned at (memory_of context.now) (done_of progress.old)) }
    ensures written { array_vec_len progress.new.writes ≤ array_vec_len progress.old.writes }
{
    if is_shared(at) {
        ask(Request68::Read16(at), context, progress)
    } else {
        Ok(word_seen(at, context, progress))
    }
}

/// Reads the word at an address; an odd one is an address error.
/// Stops there, and where an access waits for its answer.
#[inline(always)]
#[tactic(auto, unfolding(crate::specs::Actions::read_word))]
pub fn read_word(address: u32, context: &Context, progress: &mut Progress) -> Result<u16, Stop>
    ensures value { Meets result (done_of progress.new)
        (actions.read_word address (memory_of context.now) (done_of progress.old)) }
    ensures written { array_vec_len progress.new.writes ≤ array_vec_len progress.old.writes }
{
    if address % 2 == 1 {
        return Err(Stop::Odd {
            address,
            read: true,
            used: progress.used,
        });
    }
    read_aligned(bus_address(address), context, progress)
}

/// Reads the long at an address, the word at the lower address first; an odd address is an address
/// error before any access. Stops there, and where an access waits for its answer.
#[tactic(auto, unfolding(crate::specs::Actions::read_long))]
pub fn read_long(address: u32, context: &Context, progress: &mut Progress) -> Result<u32, Stop>
    ensures value { Meets result (done_of progress.new)
        (actions.read_long address (memory_of context.now) (done_of progress.old)) }
    ensures written { array_vec_len progress.new.writes ≤ array_vec_len progress.old.writes }
{
    let high = read_word(address, context, progress)?;
    let low = read_word(address.wrapping_add(2), context, progress)?;
    Ok(u32::from(high) * 0x1_0000 + u32::from(low))
}

/// Reads the operand of a size at an address.
/// Stops where an access waits for its answer, or a word or long has an odd address.
#[inline(always)]
#[tactic(auto, unfolding(crate::specs::Actions::read))]
pub fn read(
    size: Size,
    address: u32,
    context: &Context,
    progress: &mut Progress,
) -> Result<u32, Stop>
    ensures value { Meets result (done_of progress.new)
        (actions.read size address (memory_of context.now) (done_of progress.old)) }
    ensures below { IfOk result (λ value. value < modulus_of size) }
    ensures written { array_vec_len progress.new.writes ≤ array_vec_len progress.old.writes }
{
    match size {
        Size::Byte => Ok(u32::from(read_byte(address, context, progress)?)),
        Size::Word => Ok(u32::from(read_word(address, context, progress)?)),
        Size::Long => read_long(address, context, progress),
    }
}

/// Writes the byte at an address. Stops where an access waits for its answer.
#[tactic(auto, unfolding(crate::specs::Actions::write_byte))]
pub fn write_byte(
    address: u32,
    value: u8,
    context: &Context,
    progress: &mut Progress,
) -> Result<(), Stop>
    requires { array_vec_len progress.old.writes + 1 ≤ 80 }
    ensures value { Meets result (done_of progress.new)
        (actions.write_byte address value (memory_of context.now) (done_of progress.old)) }
    ensures written { array_vec_len progress.new.writes ≤ array_vec_len progress.old.writes + 1 }
{
    let at = bus_address(address);
    if is_shared(at) {
        return tell(Request68::Write8(at, value), context, progress);
    }
    put_byte(at, value, progress);
    Ok(())
}

/// Writes the word at an even address on the bus.
#[inline(always)]
#[tactic(auto, unfolding(crate::specs::Actions::write_aligned))]
fn write_aligned(
    at: u32,
    value: u16,
    context: &Context,
    progress: &mut Progress,
) -> Result<(), Stop>
    requires at { at < 0x100_0000 }
    requires room { array_vec_len progress.old.writes + 2 ≤ 80 }
    ensures value { Meets result (done_of progress.new)
        (actions.write_aligned at value (memory_of context.now) (done_of progress.old)) }
    ensures spent { SpendsAtMost progress.old progress.new 1 2 }
    ensures never_odd { NotOdd result }
{
    if is_shared(at) {
        return tell(Request68::Write16(at, value), context, progress);
    }
    put_word(at, value, progress);
    Ok(())
}

/// Writes the word at an address; an odd one is an address error.
/// Stops there, and where an access waits for its answer.
#[inline(always)]
#[tactic(auto, unfolding(crate::specs::Actions::write_word))]
pub fn write_word(
    address: u32,
    value: u16,
    context: &Context,
    progress: &mut Progress,
) -> Result<(), Stop>
    requires { array_vec_len progress.old.writes + 2 ≤ 80 }
    ensures value { Meets result (done_of progress.new)
        (actions.write_word address value (memory_of context.now) (done_of progress.old)) }
    ensures spent { SpendsAtMost progress.old progress.new 1 2 }
    ensures even { address % 2 ≡ 0 → NotOdd result }
{
    if address % 2 == 1 {
        return Err(Stop::Odd {
            address,
            read: false,
            used: progress.used,
        });
    }
    write_aligned(bus_address(address), value, context, progress)
}

/// Writes the long at an address, the word at the lower address first; an odd address is an address
/// error before any access. Stops there, and where an access waits for its answer.
#[tactic(auto, unfolding(crate::specs::Actions::write_long))]
pub fn write_long(
    address: u32,
    value: u32,
    context: &Context,
    progress: &mut Progress,
) -> Result<(), Stop>
    requires { array_vec_len progress.old.writes + 4 ≤ 80 }
    ensures value { Meets result (done_of progress.new)
        (actions.write_long address value (memory_of context.now) (done_of progress.old)) }
    ensures written { array_vec_len progress.new.writes ≤ array_vec_len progress.old.writes + 4 }
{
    write_word(address, (value / 0x1_0000) as u16, context, progress)?;
    write_word(
        address.wrapping_add(2),
        (value % 0x1_0000) as u16,
        context,
        progress,
    )
}

/// Writes an operand of a size at an address.
/// Stops where an access waits for its answer, or a word or long has an odd address.
#[inline(always)]
#[tactic(auto, unfolding(crate::specs::Actions::write))]
pub fn write(
    size: Size,
    address: u32,
    value: u32,
    context: &Context,
    progress: &mut Progress,
) -> Result<(), Stop>
    requires value { value < modulus_of size }
    requires room { array_vec_len progress.old.writes + bytes_of size ≤ 80 }
    ensures value { Meets result (done_of progress.new)
        (actions.write size address value (memory_of context.now) (done_of progress.old)) }
    ensures written { array_vec_len progress.new.writes ≤ array_vec_len progress.old.writes + bytes_of size }
{
    match size {
        Size::Byte => write_byte(address, value as u8, context, progress),
        Size::Word => write_word(address, value as u16, context, progress),
        Size::Long => write_long(address, value, context, progress),
    }
}

ghost use Rattle.std.specs.Prelude.{◌≡◌, ◌+◌, ◌*◌, ◌<◌, ◌≤◌, IfOk, ◌%◌};
ghost use Rattle.arrayvec.specs.ArrayVec.{array_vec_len};
ghost use Rattle.md_word.specs.Width.{modulus_of};
ghost use Rattle.m68k_access.specs.Clauses.{Ends, Meets, done_of, memory_of};
ghost use Rattle.m68k_exec.specs.Rows.Movep as movep;

use crate::{Context, Outcome, Progress, Stop};
use m68k_access::accesses::{read_byte, write_byte};
use m68k_access::operands::{effective, set_part};
use md_word::{Mode, Regs, Size};

/// Reads a word whose bytes are at every other address, the high byte first.
#[tactic(auto, unfolding(crate::specs::Rows::Movep::spread_word))]
fn spread_word(at: u32, context: &Context, progress: &mut Progress) -> Result<u16, Stop>
    ensures value { Meets result (done_of progress.new) (movep.spread_word at (memory_of context.now) (done_of progress.old)) }
    ensures written { array_vec_len progress.new.writes ≤ array_vec_len progress.old.writes }
{
    let high = read_byte(at, context, progress)?;
    let low = read_byte(at.wrapping_add(2), context, progress)?;
    Ok(u16::from(high) * 0x100 + u16::from(low))
}

/// Reads a long whose bytes are at every other address, the highest byte first.
#[tactic(auto, unfolding(crate::specs::Rows::Movep::spread_long))]
fn spread_long(at: u32, context: &Context, progress: &mut Progress) -> Result<u32, Stop>
    ensures value { Meets result (done_of progress.new) (movep.spread_long at (memory_of context.now) (done_of progress.old)) }
    ensures written { array_vec_len progress.new.writes ≤ array_vec_len progress.old.writes }
{
    let high = spread_word(at, context, progress)?;
    let low = spread_word(at.wrapping_add(4), context, progress)?;
    Ok(u32::from(high) * 0x1_0000 + u32::from(low))
}

/// Reads a value of a size whose bytes are at every other address.
fn read_spread(size: Size, at: u32, context: &Context, progress: &mut Progress) -> Result<u32, Stop>
    ensures value { Meets result (done_of progress.new) (movep.read_spread size at (memory_of context.now) (done_of progress.old)) }
    ensures below { IfOk result (λ value. value < modulus_of size) }
    ensures written { array_vec_len progress.new.writes ≤ array_vec_len progress.old.writes }
{
    match size {
        Size::Byte => Ok(u32::from(read_byte(at, context, progress)?)),
        Size::Word => Ok(u32::from(spread_word(at, context, progress)?)),
        Size::Long => spread_long(at, context, progress),
    }
}

/// Writes the bytes of a word to every other address, the high byte first.
#[tactic(auto, unfolding(crate::specs::Rows::Movep::write_spread_word))]
fn write_spread_word(
    at: u32,
    value: u16,
    context: &Context,
    progress: &mut Progress,
) -> Result<(), Stop>
    requires { array_vec_len progress.old.writes + 2 ≤ 80 }
    ensures value { Meets result (done_of progress.new) (movep.write_spread_word at value (memory_of context.now) (done_of progress.old)) }
    ensures written { array_vec_len progress.new.writes ≤ array_vec_len progress.old.writes + 2 }
{
    write_byte(at, (value / 0x100) as u8, context, progress)?;
    write_byte(at.wrapping_add(2), (value % 0x100) as u8, context, progress)
}

/// Writes the bytes of a long to every other address, the highest byte first.
#[tactic(auto, unfolding(crate::specs::Rows::Movep::write_spread_long))]
fn write_spread_long(
    at: u32,
    value: u32,
    context: &Context,
    progress: &mut Progress,
) -> Result<(), Stop>
    requires { array_vec_len progress.old.writes + 4 ≤ 80 }
    ensures value { Meets result (done_of progress.new) (movep.write_spread_long at value (memory_of context.now) (done_of progress.old)) }
    ensures written { array_vec_len progress.new.writes ≤ array_vec_len progress.old.writes + 4 }
{
    write_spread_word(at, (value / 0x1_0000) as u16, context, progress)?;
    write_spread_word(
        at.wrapping_add(4),
        (value % 0x1_0000) as u16,
        context,
        progress,
    )
}

/// Writes the bytes of a value of a size to every other address.
fn write_spread(
    size: Size,
    at: u32,
    value: u32,
    context: &Context,
    progress: &mut Progress,
) -> Result<(), Stop>
    requires value { value < modulus_of size }
    requires room { array_vec_len progress.old.writes + 4 ≤ 80 }
    ensures value { Meets result (done_of progress.new) (movep.write_spread size at value (memory_of context.now) (done_of progress.old)) }
    ensures written { array_vec_len progress.new.writes ≤ array_vec_len progress.old.writes + 4 }
{
    match size {
        Size::Byte => write_byte(at, value as u8, context, progress),
        Size::Word => write_spread_word(at, value as u16, context, progress),
        Size::Long => write_spread_long(at, value, context, progress),
    }
}

/// MOVEP d16(Ay),Dx: x, y and the displacement.
#[tactic(auto, unfolding(crate::specs::Rows::Movep::movep_to_register))]
pub fn movep_to_register(
    size: Size,
    x: u8,
    y: u8,
    by: u16,
    start: u32,
    context: &Context,
    regs: &mut Regs,
    progress: &mut Progress,
) -> Result<Outcome, Stop>
    requires x { x < 8 }
    requires y { y < 8 }
    ensures value { Ends result regs.new (done_of progress.new) (movep.movep_to_register size x y by start regs.old (memory_of context.now) (done_of progress.old)) }
    ensures written { array_vec_len progress.new.writes ≤ array_vec_len progress.old.writes }
{
    let at = effective(Mode::Displaced(y, by), size, start.wrapping_add(2), regs);
    let value = read_spread(size, at, context, progress)?;
    set_part(size, x, value, regs);
    Ok(Outcome::plain())
}

/// MOVEP Dx,d16(Ay): x, y and the displacement.
#[tactic(auto, unfolding(crate::specs::Rows::Movep::movep_to_memory))]
pub fn movep_to_memory(
    size: Size,
    x: u8,
    y: u8,
    by: u16,
    start: u32,
    context: &Context,
    regs: &Regs,
    progress: &mut Progress,
) -> Result<Outcome, Stop>
    requires x { x < 8 }
    requires y { y < 8 }
    requires fresh { array_vec_len progress.old.writes ≡ 0 }
    ensures value { Ends result regs.now (done_of progress.new) (movep.movep_to_memory size x y by start regs.now (memory_of context.now) (done_of progress.old)) }
    ensures written { array_vec_len progress.new.writes ≤ array_vec_len progress.old.writes + 4 }
{
    let at = effective(Mode::Displaced(y, by), size, start.wrapping_add(2), regs);
    let value = size.low(regs.register(x));
    write_spread(size, at, value, context, progress)?;
    Ok(Outcome::plain())
}

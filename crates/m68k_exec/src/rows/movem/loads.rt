ghost use Rattle.std.specs.Prelude.{◌<◌, ◌≤◌};
ghost use Rattle.arrayvec.specs.ArrayVec.{array_vec_len};
ghost use Rattle.m68k_access.specs.Clauses.{done_of, memory_of};
ghost use Rattle.m68k_exec.specs.Rows.Movem as movem;
ghost use Rattle.m68k_exec.specs.Rows.Movem.{Reaches};
ghost use Rattle.m68k_exec.specs.Rows.Turns as turns;

use crate::rows::movem::{Order, next_address};
use crate::{Context, Progress, Stop};
use m68k_access::accesses::read;
use md_word::{Regs, Size, extend};

/// Reads one register, a word with its sign extended.
#[tactic(auto, unfolding(crate::specs::Rows::Turns::load_one))]
fn load_one(
    size: Size,
    place: u8,
    at: u32,
    context: &Context,
    regs: &mut Regs,
    progress: &mut Progress,
) -> Result<u32, Stop>
    requires place { place < 16 }
    ensures value { Reaches result regs.new (done_of progress.new) (turns.load_one size place at regs.old (memory_of context.now) (done_of progress.old)) }
    ensures written { array_vec_len progress.new.writes ≤ array_vec_len progress.old.writes }
{
    let value = read(size, at, context, progress)?;
    regs.set_register(place, extend(value, size));
    Ok(next_address(Order::Rising, size, at))
}

/// Reads a register if its bit is set.
fn load_turn(
    size: Size,
    chosen: bool,
    place: u8,
    at: u32,
    context: &Context,
    regs: &mut Regs,
    progress: &mut Progress,
) -> Result<u32, Stop>
    requires place { place < 16 }
    ensures value { Reaches result regs.new (done_of progress.new) (turns.load_turn size chosen place at regs.old (memory_of context.now) (done_of progress.old)) }
    ensures written { array_vec_len progress.new.writes ≤ array_vec_len progress.old.writes }
{
    if chosen {
        load_one(size, place, at, context, regs, progress)
    } else {
        Ok(at)
    }
}

/// Reads the registers of the list.
#[tactic(auto, using(crate::proofs::Turns::load_step))]
fn load_each(
    size: Size,
    list: u16,
    at: u32,
    context: &Context,
    regs: &mut Regs,
    progress: &mut Progress,
) -> Result<u32, Stop>
    ensures value { Reaches result regs.new (done_of progress.new) (movem.load_each size (movem.places_in list) at regs.old (memory_of context.now) (done_of progress.old)) }
    ensures written { array_vec_len progress.new.writes ≤ array_vec_len progress.old.writes }
{
    let mut left = list;
    let mut address = at;
    'registers: for place in 0..16u8 {
        address = load_turn(size, left % 2 == 1, place, address, context, regs, progress)?;
        left /= 2;
    }
    Ok(address)
}

/// Reads the registers of the list, if there are any: at an odd address that is an address error.
#[tactic(auto, unfolding(crate::specs::Rows::Movem::load_list))]
pub fn load_list(
    size: Size,
    list: u16,
    at: u32,
    context: &Context,
    regs: &mut Regs,
    progress: &mut Progress,
) -> Result<u32, Stop>
    ensures value { Reaches result regs.new (done_of progress.new) (movem.load_list size list at regs.old (memory_of context.now) (done_of progress.old)) }
    ensures written { array_vec_len progress.new.writes ≤ array_vec_len progress.old.writes }
{
    if list == 0 {
        return Ok(at);
    }
    if at % 2 == 1 {
        return Err(Stop::Odd {
            address: at,
            read: true,
            used: progress.used,
        });
    }
    load_each(size, list, at, context, regs, progress)
}

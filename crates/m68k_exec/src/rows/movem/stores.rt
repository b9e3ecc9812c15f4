ghost use Rattle.std.specs.Prelude.{◌≡◌, ◌+◌, ◌<◌, ◌≤◌};
ghost use Rattle.arrayvec.specs.ArrayVec.{array_vec_len};
ghost use Rattle.m68k_access.specs.Clauses.{Meets, done_of, memory_of};
ghost use Rattle.m68k_exec.specs.Rows.Movem as movem;
ghost use Rattle.m68k_exec.specs.Rows.Turns as turns;

use crate::rows::movem::{Order, named, next_address, place_at};
use crate::{Context, Progress, Stop};
use m68k_access::accesses::write;
use md_word::{Regs, Size};

/// Writes one register, and gives the next address.
#[tactic(auto, unfolding(crate::specs::Rows::Turns::store_one))]
fn store_one(
    order: Order,
    size: Size,
    place: u8,
    at: u32,
    context: &Context,
    regs: &Regs,
    progress: &mut Progress,
) -> Result<u32, Stop>
    requires place { place < 16 }
    requires room { array_vec_len progress.old.writes + 4 ≤ 80 }
    ensures value { Meets result (done_of progress.new) (turns.store_one order size place at regs.now (memory_of context.now) (done_of progress.old)) }
    ensures written { array_vec_len progress.new.writes ≤ array_vec_len progress.old.writes + 4 }
{
    let value = size.low(regs.register(named(order, place)));
    write(size, place_at(order, size, at), value, context, progress)?;
    Ok(next_address(order, size, at))
}

/// Writes a register if its bit is set.
fn store_turn(
    order: Order,
    size: Size,
    chosen: bool,
    place: u8,
    at: u32,
    context: &Context,
    regs: &Regs,
    progress: &mut Progress,
) -> Result<u32, Stop>
    requires place { place < 16 }
    requires room { array_vec_len progress.old.writes + 4 ≤ 80 }
    ensures value { Meets result (done_of progress.new) (turns.store_turn order size chosen place at regs.now (memory_of context.now) (done_of progress.old)) }
    ensures written { array_vec_len progress.new.writes ≤ array_vec_len progress.old.writes + 4 }
{
    if chosen {
        store_one(order, size, place, at, context, regs, progress)
    } else {
        Ok(at)
    }
}

/// Writes the registers of the list, each as it was before the instruction, and gives the address
/// that is reached.
#[tactic(auto, using(crate::proofs::Turns::store_step))]
fn store_each(
    order: Order,
    size: Size,
    list: u16,
    at: u32,
    context: &Context,
    regs: &Regs,
    progress: &mut Progress,
) -> Result<u32, Stop>
    requires fresh { array_vec_len progress.old.writes ≡ 0 }
    ensures value { Meets result (done_of progress.new) (movem.store_each order size (movem.places_in list) at regs.now (memory_of context.now) (done_of progress.old)) }
    ensures written { array_vec_len progress.new.writes ≤ array_vec_len progress.old.writes + 64 }
{
    let mut left = list;
    let mut address = at;
    'registers: for place in 0..16u8 {
        address = store_turn(
            order,
            size,
            left % 2 == 1,
            place,
            address,
            context,
            regs,
            progress,
        )?;
        left /= 2;
    }
    Ok(address)
}

/// Writes the registers of the list, if there are any: at an odd address that is an address error.
#[tactic(auto, unfolding(crate::specs::Rows::Movem::store_list))]
pub fn store_list(
    order: Order,
    size: Size,
    list: u16,
    at: u32,
    context: &Context,
    regs: &Regs,
    progress: &mut Progress,
) -> Result<u32, Stop>
    requires { array_vec_len progress.old.writes ≡ 0 }
    ensures value { Meets result (done_of progress.new) (movem.store_list order size list at regs.now (memory_of context.now) (done_of progress.old)) }
    ensures written { array_vec_len progress.new.writes ≤ array_vec_len progress.old.writes + 64 }
{
    if list == 0 {
        return Ok(at);
    }
    if at % 2 == 1 {
        return Err(Stop::Odd {
            address: place_at(order, size, at),
            read: false,
            used: progress.used,
        });
    }
    store_each(order, size, list, at, context, regs, progress)
}

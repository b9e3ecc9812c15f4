ghost use Rattle.std.specs.Prelude.{◌≡◌, ◌+◌, ◌%◌, ◌<◌, ◌≤◌};
ghost use Rattle.std.specs.Int.RustNames.{count_ones};
ghost use Rattle.arrayvec.specs.ArrayVec.{array_vec_len};
ghost use Rattle.md_word.specs.Modes.{IsMode};
ghost use Rattle.m68k_access.specs.Clauses.{Ends, done_of, memory_of};
ghost use Rattle.m68k_access.specs.Outcomes.{reported_nothing};
ghost use Rattle.m68k_exec.specs.Rows.Movem as movem;

pub mod loads;
pub mod stores;

use crate::rows::movem::loads::load_list;
use crate::rows::movem::stores::store_list;
use crate::{Context, Outcome, Progress, Stop};
use m68k_access::operands::effective;
use md_word::{Mode, Regs, Size};

/// In which direction MOVEM goes through memory.
///
/// Source: M68000 Programmer's Reference Manual, section 4, MOVEM.
#[derive(Clone, Copy)]
pub enum Order {
    Rising,
    Falling,
}

/// −(An) goes down in memory, every other mode up.
fn order_of(mode: Mode) -> Order
    ensures { result ≡ movem.order_of mode }
{
    match mode {
        Mode::PreDec(_) => Order::Falling,
        _ => Order::Rising,
    }
}

/// The register that a bit of the list names.
pub fn named(order: Order, place: u8) -> u8
    requires { place < 16 }
    ensures value { result ≡ movem.named order place }
    ensures below { result < 16 }
{
    match order {
        Order::Rising => place,
        Order::Falling => 15 - place,
    }
}

/// The bytes between two registers in memory.
fn step_of(size: Size) -> u32
    ensures value { result ≡ movem.step_of size }
    ensures most { result ≤ 4 }
    ensures even { result % 2 ≡ 0 }
{
    match size {
        Size::Byte | Size::Word => 2,
        Size::Long => 4,
    }
}

/// The next address, by one register.
pub fn next_address(order: Order, size: Size, at: u32) -> u32
    ensures value { result ≡ movem.next_address order size at }
{
    match order {
        Order::Rising => at.wrapping_add(step_of(size)),
        Order::Falling => at.wrapping_sub(step_of(size)),
    }
}

/// Where a register is written.
pub fn place_at(order: Order, size: Size, at: u32) -> u32
    ensures value { result ≡ movem.place_at order size at }
{
    match order {
        Order::Rising => at,
        Order::Falling => next_address(order, size, at),
    }
}

/// Where MOVEM to memory begins: with −(An) at An itself, which is lowered for each register.
fn first_address(size: Size, mode: Mode, pc: u32, regs: &Regs) -> u32
    requires { IsMode mode }
    ensures { result ≡ movem.first_address size mode pc regs.now }
{
    match mode {
        Mode::PreDec(number) => regs.address(number),
        _ => effective(mode, size, pc, regs),
    }
}

/// Leaves the register of (An)+ or −(An) at the address that is reached.
fn leave_at(mode: Mode, at: u32, regs: &mut Regs)
    requires { IsMode mode }
    ensures { regs.new ≡ movem.left_at mode at regs.old }
{
    match mode {
        Mode::PostInc(number) | Mode::PreDec(number) => regs.set_address(number, at),
        _ => {}
    }
}

/// So many registers were moved.
fn moved(list: u16) -> Outcome
    ensures { result ≡ record reported_nothing { count = count_ones list } }
{
    Outcome {
        count: list.count_ones() as u8,
        ..Outcome::plain()
    }
}

/// MOVEM to memory, of words and longs. An empty list makes no access. With −(An) bit 0 of the list
/// is A7, the registers go down in memory, and An is written as it was; else bit 0 is D0.
#[tactic(auto, unfolding(crate::specs::Rows::Movem::movem_to_memory))]
pub fn movem_to_memory(
    size: Size,
    list: u16,
    mode: Mode,
    start: u32,
    context: &Context,
    regs: &mut Regs,
    progress: &mut Progress,
) -> Result<Outcome, Stop>
    requires mode { IsMode mode }
    requires fresh { array_vec_len progress.old.writes ≡ 0 }
    ensures value { Ends result regs.new (done_of progress.new) (movem.movem_to_memory size list mode start regs.old (memory_of context.now) (done_of progress.old)) }
    ensures written { array_vec_len progress.new.writes ≤ array_vec_len progress.old.writes + 64 }
{
    let at = first_address(size, mode, start.wrapping_add(4), regs);
    let reached = store_list(order_of(mode), size, list, at, context, regs, progress)?;
    leave_at(mode, reached, regs);
    Ok(moved(list))
}

/// MOVEM to registers, of words and longs. An empty list makes no access. (An)+ leaves An moved,
/// also where An is in the list.
#[tactic(auto, unfolding(crate::specs::Rows::Movem::movem_to_registers))]
pub fn movem_to_registers(
    size: Size,
    list: u16,
    mode: Mode,
    start: u32,
    context: &Context,
    regs: &mut Regs,
    progress: &mut Progress,
) -> Result<Outcome, Stop>
    requires { IsMode mode }
    ensures value { Ends result regs.new (done_of progress.new) (movem.movem_to_registers size list mode start regs.old (memory_of context.now) (done_of progress.old)) }
    ensures written { array_vec_len progress.new.writes ≤ array_vec_len progress.old.writes }
{
    let at = effective(mode, size, start.wrapping_add(4), regs);
    let reached = load_list(size, list, at, context, regs, progress)?;
    leave_at(mode, reached, regs);
    Ok(moved(list))
}

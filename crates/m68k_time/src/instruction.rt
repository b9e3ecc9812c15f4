ghost use Rattle.std.specs.Prelude.{◌≡◌, ◌≤◌, ◌+◌, ◌*◌, cond};
ghost use Rattle.m68k_decode.specs.Ops.{IsOp, IsSpent};
ghost use Rattle.m68k_time.specs.Addresses as addresses;
ghost use Rattle.m68k_time.specs.Clocks as rows;

use crate::address::{address_time, by_size, by_source, placed, target_time};
use crate::control::{jmp_time, jsr_time, lea_time, load_time, pea_time, store_time};
use crate::exception::exception_time;
use m68k_decode::{Displacement, Op};
use md_word::{Mode, Size, Spent, Task};

/// The clocks that an instruction took, by what it is and what it met: its row's, or the whole time
/// of the exception in which it ended.
///
/// `spent.taken` says of Bcc and DBcc that the branch was taken, and of Scc that the condition
/// held. A DBcc that neither branched nor expired had its condition met. Source: M68000 User's
/// Manual, section 8.
///
/// They suffice for the accesses, each of which takes four clocks, and four more.
#[tactic(auto, using(crate::proofs::Covers::covers))]
pub fn clocks(op: &Op, spent: Spent) -> u32
    ensures value { result ≡ rows.clocks_of op.now spent }
    ensures covers { IsOp op.now → IsSpent op.now spent → 4 * spent.accesses + 4 ≤ result }
{
    if spent.cause == 0 {
        row_time(op, spent)
    } else {
        exception_time(spent.cause, op)
    }
}

/// The time of an instruction that ended well.
fn row_time(op: &Op, spent: Spent) -> u32
    ensures { result ≡ rows.row_time op.now spent }
{
    let count = u32::from(spent.count);
    match *op {
        Op::Immediate(_, size, _, mode) => memory_time(size, mode, by_size(size, 8, 16), 12, 20),
        Op::CompareImmediate(size, _, mode) => memory_time(size, mode, by_size(size, 8, 14), 8, 12),
        Op::ImmediateToCcr(..) | Op::ImmediateToSr(..) | Op::Rte | Op::Rtr => 20,
        Op::BitByRegister(task, _, mode) => bit_time(task, mode),
        Op::BitByNumber(task, _, mode) => 4 + bit_time(task, mode),
        Op::MovepToRegister(size, ..) | Op::MovepToMemory(size, ..) => by_size(size, 16, 24),
        Op::Move(size, source, target) => 4
            + address_time(size, source)
            + target_time(size, target),
        Op::Movea(size, _, mode) | Op::Tst(size, mode) => 4 + address_time(size, mode),
        Op::Unary(_, size, mode) => memory_time(size, mode, by_size(size, 4, 6), 8, 12),
        Op::MoveFromSr(mode) => memory_time(Size::Word, mode, 6, 8, 8),
        Op::MoveToCcr(mode) | Op::MoveToSr(mode) => 12 + address_time(Size::Word, mode),
        Op::Nbcd(mode) => memory_time(Size::Byte, mode, 6, 8, 8),
        Op::Swap(_) | Op::Ext(..) | Op::MoveToUsp(_) | Op::MoveFromUsp(_) => 4,
        Op::Nop | Op::Stop(_) | Op::Trapv | Op::Moveq(..) => 4,
        Op::Pea(mode) => pea_time(mode),
        Op::MovemToMemory(size, _, mode) => store_time(mode) + by_size(size, 4, 8) * count,
        Op::MovemToRegisters(size, _, mode) => load_time(mode) + by_size(size, 4, 8) * count,
        Op::Tas(mode) => memory_time(Size::Byte, mode, 4, 10, 10),
        Op::Trap(_) | Op::Illegal(_) | Op::LineA(_) | Op::LineF(_) => 34,
        Op::Link(..) | Op::Rts => 16,
        Op::Unlk(_) => 12,
        Op::Reset => 132,
        Op::Jsr(mode) => jsr_time(mode),
        Op::Jmp(mode) => jmp_time(mode),
        Op::Lea(_, mode) => lea_time(mode),
        Op::Chk(_, mode) => 10 + address_time(Size::Word, mode),
        Op::Quick(_, size, _, mode) => quick_time(size, mode),
        Op::Scc(_, mode) => memory_time(Size::Byte, mode, if spent.taken { 6 } else { 4 }, 8, 8),
        Op::Dbcc(..) => loop_time(spent),
        Op::Bra(_) => 10,
        Op::Bsr(_) => 18,
        Op::Bcc(_, displacement) => branch_time(displacement, spent),
        Op::Divu(_, mode) => 140 + address_time(Size::Word, mode),
        Op::Divs(_, mode) => 158 + address_time(Size::Word, mode),
        Op::Decimal(_, source, _) => placed(source, 6, 18),
        Op::Extended(_, size, source, _) => placed(
            source,
            by_size(size, 4, 8),
            by_size(size, 18, 30),
        ),
        Op::ToRegister(_, size, _, mode) => read_time(size, mode, 4),
        Op::ToMemory(_, size, _, mode) => by_size(size, 8, 12) + address_time(size, mode),
        Op::ToAddress(_, size, _, mode) => read_time(size, mode, 8),
        Op::Cmp(size, _, mode) => by_size(size, 4, 6) + address_time(size, mode),
        Op::Cmpa(size, _, mode) => 6 + address_time(size, mode),
        Op::Eor(size, _, mode) => memory_time(size, mode, by_size(size, 4, 8), 8, 12),
        Op::Cmpm(size, ..) => by_size(size, 12, 20),
        Op::Mulu(_, mode) | Op::Muls(_, mode) => 38 + 2 * count + address_time(Size::Word, mode),
        Op::Exg(..) => 6,
        Op::ShiftByNumber(_, size, ..) | Op::ShiftByRegister(_, size, ..) => by_size(size, 6, 8)
            + 2 * count,
        Op::ShiftMemory(_, mode) => 8 + address_time(Size::Word, mode),
    }
}

/// An operand in a register, or one in memory with the time of its address.
fn memory_time(size: Size, mode: Mode, register: u32, short: u32, long: u32) -> u32
    requires short { short ≤ 100 }
    requires long { long ≤ 100 }
    ensures value { result ≡ addresses.placed mode register (addresses.by_size size short long + addresses.address_time size mode) }
    ensures most { result ≤ register + 116 }
{
    placed(
        mode,
        register,
        by_size(size, short, long) + address_time(size, mode),
    )
}

/// ADD and its like to a register.
fn read_time(size: Size, mode: Mode, short: u32) -> u32
    requires { short ≤ 100 }
    ensures { result ≡ addresses.by_size size short (addresses.by_source mode 8 6) + addresses.address_time size mode }
{
    by_size(size, short, by_source(mode, 8, 6)) + address_time(size, mode)
}

/// BTST, BCHG, BCLR and BSET by a data register.
#[inline(always)]
fn bit_time(task: Task, mode: Mode) -> u32
    ensures value { result ≡ rows.bit_time task mode }
    ensures most { result ≤ 24 }
{
    match task {
        Task::Btst => memory_time(Size::Byte, mode, 6, 4, 4),
        Task::Bclr => memory_time(Size::Byte, mode, 10, 8, 8),
        _ => memory_time(Size::Byte, mode, 8, 8, 8),
    }
}

/// ADDQ and SUBQ.
#[inline(always)]
fn quick_time(size: Size, mode: Mode) -> u32
    ensures { result ≡ rows.quick_time size mode }
{
    match mode {
        Mode::Address(_) => 8,
        mode => memory_time(size, mode, by_size(size, 4, 8), 8, 12),
    }
}

/// DBcc.
fn loop_time(spent: Spent) -> u32
    ensures { result ≡ cond spent.expired 14 (cond spent.taken 10 12) }
{
    match (spent.expired, spent.taken) {
        (true, _) => 14,
        (false, true) => 10,
        (false, false) => 12,
    }
}

/// Bcc.
fn branch_time(displacement: Displacement, spent: Spent) -> u32
    ensures { result ≡ cond spent.taken 10 (rows.passed_time displacement) }
{
    match displacement {
        _ if spent.taken => 10,
        Displacement::Byte(_) => 8,
        Displacement::Word(_) => 12,
    }
}

ghost use Rattle.std.specs.Prelude.{ℕ, ◌≡◌};
ghost use Rattle.md_disasm.specs.Groups68 as groups;
ghost use Rattle.md_disasm.specs.Rows68 as rows;
ghost use Rattle.md_disasm.specs.Shown68.{shown68};

use crate::names68::task_name;
use crate::operand68::Operand68::{
    Address, Ccr, Data, Digit, Either, Number, Place, Registers, Sr,
};
use crate::syntax68::{Syntax68, ended, one, two};
use m68k_decode::Op;
use md_word::Mode;
use md_word::Size::{Byte, Long, Word};

/// Whether the list of MOVEM is turned round.
fn is_turned(mode: Mode) -> bool
    ensures { result ≡ rows.is_turned mode }
{
    matches!(mode, Mode::PreDec(_))
}

/// Instructions with a number, and those on a bit.
pub(super) fn numbers(op: Op) -> Syntax68
    requires { groups.IsOfNumber op }
    ensures { (at : ℕ) → shown68 result ≡ rows.row_of op at }
{
    match op {
        Op::Immediate(task, size, n, mode) => ended(
            task_name(task),
            "i",
            Number(size, n),
            Place(size, mode),
        ).sized(size),
        Op::CompareImmediate(size, n, mode) => two(
            "cmpi",
            Number(size, n),
            Place(size, mode),
        ).sized(size),
        Op::ImmediateToCcr(task, n) => ended(task_name(task), "i", Number(Byte, u32::from(n)), Ccr),
        Op::ImmediateToSr(task, n) => ended(task_name(task), "i", Number(Word, u32::from(n)), Sr),
        Op::BitByRegister(task, n, mode) => two(task_name(task), Data(n), Place(Byte, mode)),
        Op::BitByNumber(task, n, mode) => two(
            task_name(task),
            Number(Byte, u32::from(n)),
            Place(Byte, mode),
        ),
        Op::Quick(task, size, n, mode) => ended(
            task_name(task),
            "q",
            Digit(n),
            Place(size, mode),
        ).sized(size),
        Op::Moveq(n, value) => two("moveq", Number(Byte, u32::from(value)), Data(n)),
        _ => unreachable!(),
    }
}

/// Moves of operands, of addresses and of lists of registers.
pub(super) fn moves(op: Op) -> Syntax68
    requires { groups.IsMove op }
    ensures { (at : ℕ) → shown68 result ≡ rows.row_of op at }
{
    match op {
        Op::MovepToRegister(size, x, y, displacement) => two(
            "movep",
            Place(size, Mode::Displaced(y, displacement)),
            Data(x),
        )
        .sized(size),
        Op::MovepToMemory(size, x, y, displacement) => two(
            "movep",
            Data(x),
            Place(size, Mode::Displaced(y, displacement)),
        )
        .sized(size),
        Op::Move(size, source, place) => two("move", Place(size, source), Place(size, place)).sized(
            size,
        ),
        Op::Movea(size, n, mode) => two("movea", Place(size, mode), Address(n)).sized(size),
        Op::Pea(mode) => one("pea", Place(Long, mode)),
        Op::MovemToMemory(size, list, mode) => two(
            "movem",
            Registers(is_turned(mode), list),
            Place(size, mode),
        ).sized(size),
        Op::MovemToRegisters(size, list, mode) => two(
            "movem",
            Place(size, mode),
            Registers(false, list),
        ).sized(size),
        Op::Lea(n, mode) => two("lea", Place(Long, mode), Address(n)),
        Op::Exg(x, y) => two("exg", Either(x), Either(y)),
        _ => unreachable!(),
    }
}

/// Instructions on one operand, and shifts.
pub(super) fn operands(op: Op) -> Syntax68
    requires { groups.IsOnOperand op }
    ensures { (at : ℕ) → shown68 result ≡ rows.row_of op at }
{
    match op {
        Op::Unary(task, size, mode) => one(task_name(task), Place(size, mode)).sized(size),
        Op::Nbcd(mode) => one("nbcd", Place(Byte, mode)),
        Op::Swap(n) => one("swap", Data(n)),
        Op::Ext(size, n) => one("ext", Data(n)).sized(size),
        Op::Tst(size, mode) => one("tst", Place(size, mode)).sized(size),
        Op::Tas(mode) => one("tas", Place(Byte, mode)),
        Op::Link(n, displacement) => two("link", Address(n), Number(Word, u32::from(displacement))),
        Op::Unlk(n) => one("unlk", Address(n)),
        Op::ShiftByNumber(task, size, n, r) => two(task_name(task), Digit(n), Data(r)).sized(size),
        Op::ShiftByRegister(task, size, n, r) => two(task_name(task), Data(n), Data(r)).sized(size),
        Op::ShiftMemory(task, mode) => one(task_name(task), Place(Word, mode)),
        _ => unreachable!(),
    }
}

/// Sums, differences, comparisons, products and quotients.
pub(super) fn sums(op: Op) -> Syntax68
    requires { groups.IsSum op }
    ensures { (at : ℕ) → shown68 result ≡ rows.row_of op at }
{
    match op {
        Op::Divu(n, mode) => two("divu", Place(Word, mode), Data(n)),
        Op::Divs(n, mode) => two("divs", Place(Word, mode), Data(n)),
        Op::Decimal(task, source, place) => two(
            task_name(task),
            Place(Byte, source),
            Place(Byte, place),
        ),
        Op::Extended(task, size, source, place) => two(
            task_name(task),
            Place(size, source),
            Place(size, place),
        ).sized(size),
        Op::ToRegister(task, size, n, mode) => two(
            task_name(task),
            Place(size, mode),
            Data(n),
        ).sized(size),
        Op::ToMemory(task, size, n, mode) => two(task_name(task), Data(n), Place(size, mode)).sized(
            size,
        ),
        Op::ToAddress(task, size, n, mode) => ended(
            task_name(task),
            "a",
            Place(size, mode),
            Address(n),
        ).sized(size),
        Op::Cmp(size, n, mode) => two("cmp", Place(size, mode), Data(n)).sized(size),
        Op::Cmpa(size, n, mode) => two("cmpa", Place(size, mode), Address(n)).sized(size),
        Op::Eor(size, n, mode) => two("eor", Data(n), Place(size, mode)).sized(size),
        Op::Cmpm(size, x, y) => two(
            "cmpm",
            Place(size, Mode::PostInc(y)),
            Place(size, Mode::PostInc(x)),
        )
        .sized(size),
        Op::Mulu(n, mode) => two("mulu", Place(Word, mode), Data(n)),
        Op::Muls(n, mode) => two("muls", Place(Word, mode), Data(n)),
        _ => unreachable!(),
    }
}

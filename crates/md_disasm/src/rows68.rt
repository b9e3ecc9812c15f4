ghost use Rattle.std.specs.Prelude.{ℕ, ◌≡◌};
ghost use Rattle.md_disasm.specs.Groups68 as groups;
ghost use Rattle.md_disasm.specs.Rows68 as rows;
ghost use Rattle.md_disasm.specs.Shown68.{shown68};

mod data;

use crate::operand68::Operand68::{
    Address, Ccr, Data, Digit, Nothing, Number, Opcode, Place, Sr, Target, Usp,
};
use crate::operand68::condition_name;
use crate::syntax68::{Syntax68, ended, none, one, two};
use data::{moves, numbers, operands, sums};
use m68k_decode::{Displacement, Op};
use md_word::Size::{self, Byte, Long, Word};
use md_word::extend;

/// The size of a branch.
fn size_of(displacement: Displacement) -> Size
    ensures { result ≡ rows.size_of displacement }
{
    match displacement {
        Displacement::Byte(_) => Byte,
        Displacement::Word(_) => Word,
    }
}

/// A displacement, with its sign extended.
fn distance(displacement: Displacement) -> u32
    ensures { result ≡ rows.distance displacement }
{
    match displacement {
        Displacement::Byte(displacement) => extend(u32::from(displacement), Byte),
        Displacement::Word(displacement) => extend(u32::from(displacement), Word),
    }
}

/// The address that a branch at an address goes to.
#[tactic(auto, unfolding(crate::specs::Rows68::target))]
fn target(at: u32, displacement: Displacement) -> u32
    ensures { result ≡ rows.target at displacement }
{
    ((u64::from(at) + 2 + u64::from(distance(displacement))) & 0xffff_ffff) as u32
}

/// Instructions on the status, without an operand, and what is no instruction.
fn control(op: Op) -> Syntax68
    requires { groups.IsControl op }
    ensures { (at : ℕ) → shown68 result ≡ rows.row_of op at }
{
    match op {
        Op::MoveFromSr(mode) => two("move", Sr, Place(Word, mode)),
        Op::MoveToCcr(mode) => two("move", Place(Word, mode), Ccr),
        Op::MoveToSr(mode) => two("move", Place(Word, mode), Sr),
        Op::MoveToUsp(n) => two("move", Address(n), Usp),
        Op::MoveFromUsp(n) => two("move", Usp, Address(n)),
        Op::Reset => none("reset"),
        Op::Nop => none("nop"),
        Op::Stop(n) => one("stop", Number(Word, u32::from(n))),
        Op::Rte => none("rte"),
        Op::Rts => none("rts"),
        Op::Trapv => none("trapv"),
        Op::Rtr => none("rtr"),
        Op::Illegal(word) => one("dc.w", Opcode(word)),
        Op::LineA(word) => one("dc.w", Opcode(word)),
        Op::LineF(word) => one("dc.w", Opcode(word)),
        _ => unreachable!(),
    }
}

/// Branches, jumps, traps and what a condition sets, at an address.
fn jumps(op: Op, at: u32) -> Syntax68
    requires { groups.IsJump op }
    ensures { shown68 result ≡ rows.row_of op at }
{
    match op {
        Op::Trap(n) => one("trap", Digit(n)),
        Op::Jsr(mode) => one("jsr", Place(Long, mode)),
        Op::Jmp(mode) => one("jmp", Place(Long, mode)),
        Op::Chk(n, mode) => two("chk", Place(Word, mode), Data(n)),
        Op::Scc(condition, mode) => ended(
            "s",
            condition_name(condition),
            Place(Byte, mode),
            Nothing,
        ),
        Op::Dbcc(condition, n, displacement) => ended(
            "db",
            condition_name(condition),
            Data(n),
            Target(target(at, Displacement::Word(displacement))),
        ),
        Op::Bra(displacement) => one("bra", Target(target(at, displacement))).sized(size_of(
            displacement,
        )),
        Op::Bsr(displacement) => one("bsr", Target(target(at, displacement))).sized(size_of(
            displacement,
        )),
        Op::Bcc(condition, displacement) => ended(
            "b",
            condition_name(condition),
            Target(target(at, displacement)),
            Nothing,
        )
        .sized(size_of(displacement)),
        _ => unreachable!(),
    }
}

/// The name, the size and the operands of an instruction at an address.
pub(crate) fn row_of(op: Op, at: u32) -> Syntax68
    ensures { shown68 result ≡ rows.row_of op at }
{
    match op {
        Op::Immediate(..)
        | Op::CompareImmediate(..)
        | Op::ImmediateToCcr(..)
        | Op::ImmediateToSr(..)
        | Op::BitByRegister(..)
        | Op::BitByNumber(..)
        | Op::Quick(..)
        | Op::Moveq(..) => numbers(op),
        Op::MovepToRegister(..)
        | Op::MovepToMemory(..)
        | Op::Move(..)
        | Op::Movea(..)
        | Op::Pea(..)
        | Op::MovemToMemory(..)
        | Op::MovemToRegisters(..)
        | Op::Lea(..)
        | Op::Exg(..) => moves(op),
        Op::MoveFromSr(..)
        | Op::MoveToCcr(..)
        | Op::MoveToSr(..)
        | Op::MoveToUsp(..)
        | Op::MoveFromUsp(..)
        | Op::Reset
        | Op::Nop
        | Op::Stop(..)
        | Op::Rte
        | Op::Rts
        | Op::Trapv
        | Op::Rtr
        | Op::Illegal(..)
        | Op::LineA(..)
        | Op::LineF(..) => control(op),
        Op::Trap(..)
        | Op::Jsr(..)
        | Op::Jmp(..)
        | Op::Chk(..)
        | Op::Scc(..)
        | Op::Dbcc(..)
        | Op::Bra(..)
        | Op::Bsr(..)
        | Op::Bcc(..) => jumps(op, at),
        Op::Unary(..)
        | Op::Nbcd(..)
        | Op::Swap(..)
        | Op::Ext(..)
        | Op::Tst(..)
        | Op::Tas(..)
        | Op::Link(..)
        | Op::Unlk(..)
        | Op::ShiftByNumber(..)
        | Op::ShiftByRegister(..)
        | Op::ShiftMemory(..) => operands(op),
        Op::Divu(..)
        | Op::Divs(..)
        | Op::Decimal(..)
        | Op::Extended(..)
        | Op::ToRegister(..)
        | Op::ToMemory(..)
        | Op::ToAddress(..)
        | Op::Cmp(..)
        | Op::Cmpa(..)
        | Op::Eor(..)
        | Op::Cmpm(..)
        | Op::Mulu(..)
        | Op::Muls(..) => sums(op),
    }
}

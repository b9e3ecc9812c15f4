ghost use Rattle.std.specs.Prelude.{ℕ, ◌≡◌};
ghost use Rattle.md_disasm.specs.Groups80 as groups;
ghost use Rattle.md_disasm.specs.Rows80 as rows;
ghost use Rattle.md_disasm.specs.Shown80.{shown80};

use crate::names80::{block_compare, block_input, block_load, block_output, task_name};
use crate::operand80::Operand80::{
    self, AtRegister, AtWord, Bit, Byte, ByteAndWord, Condition, Mode, Nothing, OtherAf, Place,
    Port, PortC, Register, Special, Word,
};
use crate::operand80::register;
use crate::syntax80::{Syntax80, none, one, two};
use md_word::{Size, extend};
use z80_decode::{Index, Op80, Pair, Place8, Task80};

/// The address that a relative jump at an address goes to.
#[tactic(auto, unfolding(crate::specs::Rows80::target))]
fn target(at: u16, distance: u8) -> u16
    ensures { result ≡ rows.target at distance }
{
    let distance = extend(u32::from(distance), Size::Byte);
    ((u64::from(at) + 2 + u64::from(distance)) & 0xffff) as u16
}

/// An operation on A.
fn arithmetic(task: Task80, source: Place8) -> Syntax80
    ensures { shown80 result ≡ rows.arithmetic task source }
{
    let accumulator = Place(Place8::A);
    let source = Place(source);
    match task {
        Task80::Add => two("add", accumulator, source),
        Task80::Adc => two("adc", accumulator, source),
        Task80::Sbc => two("sbc", accumulator, source),
        _ => one(task_name(task), source),
    }
}

/// A change of bits.
fn change(task: Task80, place: Place8) -> Syntax80
    ensures { shown80 result ≡ rows.change task place }
{
    let place = Place(place);
    match task {
        Task80::Res(bit) => two("res", Bit(bit), place),
        Task80::Set(bit) => two("set", Bit(bit), place),
        _ => one(task_name(task), place),
    }
}

/// LD dd,(nn) with the prefix ED. That of HL has a shorter form, whose text means that alone.
fn load_extended(pair: Pair, address: u16) -> Syntax80
    ensures { shown80 result ≡ rows.load_extended pair address }
{
    match pair {
        Pair::Hl => two("db", Byte(0xed), ByteAndWord(0x6b, address)),
        _ => two("ld", Register(pair), AtWord(address)),
    }
}

/// LD (nn),dd with the prefix ED. That of HL has a shorter form, whose text means that alone.
fn store_extended(address: u16, pair: Pair) -> Syntax80
    ensures { shown80 result ≡ rows.store_extended address pair }
{
    match pair {
        Pair::Hl => two("db", Byte(0xed), ByteAndWord(0x63, address)),
        _ => two("ld", AtWord(address), Register(pair)),
    }
}

/// The byte of a prefix alone.
fn lone_prefix(index: Index) -> Operand80
    ensures { result ≡ rows.lone_prefix index }
{
    match index {
        Index::Hl => Nothing,
        Index::Ix => Byte(0xdd),
        Index::Iy => Byte(0xfd),
    }
}

/// Loads of bytes and of pairs.
fn loads(op: Op80) -> Syntax80
    requires { groups.IsLoad op }
    ensures { (at : ℕ) → shown80 result ≡ rows.row_of op at }
{
    match op {
        Op80::Load(target, source) => two("ld", Place(target), Place(source)),
        Op80::LoadFromSpecial(special) => two("ld", Place(Place8::A), Special(special)),
        Op80::LoadToSpecial(special) => two("ld", Special(special), Place(Place8::A)),
        Op80::LoadPair(pair, n) => two("ld", Register(pair), Word(n)),
        Op80::LoadIndex(index, address) => two("ld", Register(register(index)), AtWord(address)),
        Op80::LoadPairExtended(pair, address) => load_extended(pair, address),
        Op80::StoreIndex(address, index) => two("ld", AtWord(address), Register(register(index))),
        Op80::StorePairExtended(address, pair) => store_extended(address, pair),
        Op80::LoadStackPointer(index) => two("ld", Register(Pair::Sp), Register(register(index))),
        Op80::Push(pair) => one("push", Register(pair)),
        Op80::Pop(pair) => one("pop", Register(pair)),
        _ => unreachable!(),
    }
}

/// Exchanges, and the instructions that go on over a block.
fn exchanges(op: Op80) -> Syntax80
    requires { groups.IsExchange op }
    ensures { (at : ℕ) → shown80 result ≡ rows.row_of op at }
{
    match op {
        Op80::ExchangeDeHl => two("ex", Register(Pair::De), Register(Pair::Hl)),
        Op80::ExchangeAf => two("ex", Register(Pair::Af), OtherAf),
        Op80::ExchangeAll => none("exx"),
        Op80::ExchangeStack(index) => two("ex", AtRegister(Pair::Sp), Register(register(index))),
        Op80::BlockLoad(steps) => none(block_load(steps)),
        Op80::BlockCompare(steps) => none(block_compare(steps)),
        Op80::BlockInput(steps) => none(block_input(steps)),
        Op80::BlockOutput(steps) => none(block_output(steps)),
        _ => unreachable!(),
    }
}

/// Operations on bytes and on pairs.
fn sums(op: Op80) -> Syntax80
    requires { groups.IsSum op }
    ensures { (at : ℕ) → shown80 result ≡ rows.row_of op at }
{
    match op {
        Op80::Arithmetic(task, source) => arithmetic(task, source),
        Op80::Step(task, place) => one(task_name(task), Place(place)),
        Op80::Accumulator(task) => none(task_name(task)),
        Op80::Negate => none("neg"),
        Op80::AddPair(index, pair) => two("add", Register(register(index)), Register(pair)),
        Op80::AddPairWithCarry(pair) => two("adc", Register(Pair::Hl), Register(pair)),
        Op80::SubtractPairWithCarry(pair) => two("sbc", Register(Pair::Hl), Register(pair)),
        Op80::IncrementPair(pair) => one("inc", Register(pair)),
        Op80::DecrementPair(pair) => one("dec", Register(pair)),
        Op80::Change(task, place) => change(task, place),
        Op80::TestBit(bit, place) => two("bit", Bit(bit), Place(place)),
        Op80::RotateDigitsLeft => none("rld"),
        Op80::RotateDigitsRight => none("rrd"),
        _ => unreachable!(),
    }
}

/// Jumps, calls and returns, at an address.
fn jumps(op: Op80, at: u16) -> Syntax80
    requires { groups.IsJump op }
    ensures { shown80 result ≡ rows.row_of op at }
{
    match op {
        Op80::Jump(address) => one("jp", Word(address)),
        Op80::JumpIf(condition, address) => two("jp", Condition(condition), Word(address)),
        Op80::JumpRelative(distance) => one("jr", Word(target(at, distance))),
        Op80::JumpRelativeIf(condition, distance) => two(
            "jr",
            Condition(condition),
            Word(target(at, distance)),
        ),
        Op80::JumpIndex(index) => one("jp", AtRegister(register(index))),
        Op80::DecrementAndJump(distance) => one("djnz", Word(target(at, distance))),
        Op80::Call(address) => one("call", Word(address)),
        Op80::CallIf(condition, address) => two("call", Condition(condition), Word(address)),
        Op80::Return => none("ret"),
        Op80::ReturnIf(condition) => one("ret", Condition(condition)),
        Op80::ReturnFromInterrupt => none("reti"),
        Op80::ReturnFromNonMaskable => none("retn"),
        Op80::Restart(address) => one("rst", Byte(address)),
        _ => unreachable!(),
    }
}

/// Instructions on the processor and on ports, and what is no instruction.
fn control(op: Op80) -> Syntax80
    requires { groups.IsControl op }
    ensures { (at : ℕ) → shown80 result ≡ rows.row_of op at }
{
    match op {
        Op80::Nop => none("nop"),
        Op80::Halt => none("halt"),
        Op80::DisableInterrupts => none("di"),
        Op80::EnableInterrupts => none("ei"),
        Op80::SetInterruptMode(mode) => one("im", Mode(mode)),
        Op80::InputAtNumber(port) => two("in", Place(Place8::A), Port(port)),
        Op80::Input(place) => two("in", Place(place), PortC),
        Op80::OutputAtNumber(port) => two("out", Port(port), Place(Place8::A)),
        Op80::Output(place) => two("out", PortC, Place(place)),
        Op80::LonePrefix(index) => one("db", lone_prefix(index)),
        Op80::Undefined(opcode) => two("db", Byte(0xed), Byte(opcode)),
        _ => unreachable!(),
    }
}

/// The name and the operands of an instruction at an address.
pub(crate) fn row_of(op: Op80, at: u16) -> Syntax80
    ensures { shown80 result ≡ rows.row_of op at }
{
    match op {
        Op80::Load(..)
        | Op80::LoadFromSpecial(..)
        | Op80::LoadToSpecial(..)
        | Op80::LoadPair(..)
        | Op80::LoadIndex(..)
        | Op80::LoadPairExtended(..)
        | Op80::StoreIndex(..)
        | Op80::StorePairExtended(..)
        | Op80::LoadStackPointer(..)
        | Op80::Push(..)
        | Op80::Pop(..) => loads(op),
        Op80::ExchangeDeHl
        | Op80::ExchangeAf
        | Op80::ExchangeAll
        | Op80::ExchangeStack(..)
        | Op80::BlockLoad(..)
        | Op80::BlockCompare(..)
        | Op80::BlockInput(..)
        | Op80::BlockOutput(..) => exchanges(op),
        Op80::Arithmetic(..)
        | Op80::Step(..)
        | Op80::Accumulator(..)
        | Op80::Negate
        | Op80::AddPair(..)
        | Op80::AddPairWithCarry(..)
        | Op80::SubtractPairWithCarry(..)
        | Op80::IncrementPair(..)
        | Op80::DecrementPair(..)
        | Op80::Change(..)
        | Op80::TestBit(..)
        | Op80::RotateDigitsLeft
        | Op80::RotateDigitsRight => sums(op),
        Op80::Jump(..)
        | Op80::JumpIf(..)
        | Op80::JumpRelative(..)
        | Op80::JumpRelativeIf(..)
        | Op80::JumpIndex(..)
        | Op80::DecrementAndJump(..)
        | Op80::Call(..)
        | Op80::CallIf(..)
        | Op80::Return
        | Op80::ReturnIf(..)
        | Op80::ReturnFromInterrupt
        | Op80::ReturnFromNonMaskable
        | Op80::Restart(..) => jumps(op, at),
        Op80::Nop
        | Op80::Halt
        | Op80::DisableInterrupts
        | Op80::EnableInterrupts
        | Op80::SetInterruptMode(..)
        | Op80::InputAtNumber(..)
        | Op80::Input(..)
        | Op80::OutputAtNumber(..)
        | Op80::Output(..)
        | Op80::LonePrefix(..)
        | Op80::Undefined(..) => control(op),
    }
}

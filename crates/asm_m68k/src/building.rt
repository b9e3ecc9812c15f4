//! The instruction that a mnemonic, a size and the forms of two operands name.

ghost use Rattle.std.specs.Prelude.{◌≡◌};
ghost use Rattle.asm_m68k.specs.Coded.{IsCoded};
ghost use Rattle.asm_m68k.specs.Building as building;
ghost use Rattle.asm_m68k.specs.Forms.{IsForm};

use crate::Form;
use crate::form_values::{
    base, by_word, displacement, either, is_ccr, is_data, is_displaced, is_immediate, is_list,
    is_nothing, is_sr, is_usp, list, list_with, low_byte, low_word, mode, number, offset, quick,
    register,
};
use crate::mnemonic::Mnemonic;
use m68k_decode::Op;
use md_word::{Size, Task};

fn movem(size: Size, first: Form, second: Form) -> Op
    requires first { IsForm first }
    requires second { IsForm second }
    ensures value { result ≡ building.movem size first second }
    ensures coded { IsCoded result }
{
    if is_list(first) {
        let place = mode(size, second);
        Op::MovemToMemory(size, list_with(place, first), place)
    } else {
        Op::MovemToRegisters(size, list(second), mode(size, first))
    }
}

fn immediate(task: Task, size: Size, first: Form, second: Form) -> Op
    requires first { IsForm first }
    requires second { IsForm second }
    ensures value { result ≡ building.immediate task size first second }
    ensures coded { IsCoded result }
{
    if is_ccr(second) {
        Op::ImmediateToCcr(task, low_byte(first))
    } else if is_sr(second) {
        Op::ImmediateToSr(task, low_word(first))
    } else {
        Op::Immediate(task, size, size.low(number(first)), mode(size, second))
    }
}

fn bit(task: Task, first: Form, second: Form) -> Op
    requires first { IsForm first }
    requires second { IsForm second }
    ensures value { result ≡ building.bit task first second }
    ensures coded { IsCoded result }
{
    if is_immediate(first) {
        Op::BitByNumber(task, low_byte(first), mode(Size::Byte, second))
    } else {
        Op::BitByRegister(task, register(first), mode(Size::Byte, second))
    }
}

fn movep(size: Size, first: Form, second: Form) -> Op
    requires first { IsForm first }
    requires second { IsForm second }
    ensures value { result ≡ building.movep size first second }
    ensures coded { IsCoded result }
{
    if is_displaced(first) {
        Op::MovepToRegister(size, register(second), base(first), offset(first))
    } else {
        Op::MovepToMemory(size, register(first), base(second), offset(second))
    }
}

fn moved(size: Size, first: Form, second: Form) -> Op
    requires first { IsForm first }
    requires second { IsForm second }
    ensures value { result ≡ building.move size first second }
    ensures coded { IsCoded result }
{
    if is_sr(first) {
        Op::MoveFromSr(mode(Size::Word, second))
    } else if is_usp(first) {
        Op::MoveFromUsp(register(second))
    } else if is_ccr(second) {
        Op::MoveToCcr(mode(Size::Word, first))
    } else if is_sr(second) {
        Op::MoveToSr(mode(Size::Word, first))
    } else if is_usp(second) {
        Op::MoveToUsp(register(first))
    } else {
        Op::Move(size, mode(size, first), mode(size, second))
    }
}

fn sum(task: Task, size: Size, first: Form, second: Form) -> Op
    requires first { IsForm first }
    requires second { IsForm second }
    ensures value { result ≡ building.sum task size first second }
    ensures coded { IsCoded result }
{
    if is_data(second) {
        Op::ToRegister(task, size, register(second), mode(size, first))
    } else {
        Op::ToMemory(task, size, register(first), mode(size, second))
    }
}

fn shift(task: Task, size: Size, first: Form, second: Form) -> Op
    requires first { IsForm first }
    requires second { IsForm second }
    ensures value { result ≡ building.shift task size first second }
    ensures coded { IsCoded result }
{
    if is_nothing(second) {
        Op::ShiftMemory(task, mode(Size::Word, first))
    } else if is_immediate(first) {
        Op::ShiftByNumber(task, size, quick(first), register(second))
    } else {
        Op::ShiftByRegister(task, size, register(first), register(second))
    }
}

/// The instruction of a mnemonic, a size and two operands, at an address. It is total: operands that do not fit give some
/// instruction, and the round-trip check refuses it.
#[tactic(auto, unfolding(crate::specs::Building::built))]
pub(crate) fn built(mnemonic: Mnemonic, size: Size, first: Form, second: Form, at: u32) -> Op
    requires first { IsForm first }
    requires second { IsForm second }
    ensures value { result ≡ building.built mnemonic size first second at }
    ensures coded { IsCoded result }
{
    match mnemonic {
        Mnemonic::Unknown | Mnemonic::Nop => Op::Nop,
        Mnemonic::Immediate(task) => immediate(task, size, first, second),
        Mnemonic::CompareImmediate => {
            Op::CompareImmediate(size, size.low(number(first)), mode(size, second))
        }
        Mnemonic::Bit(task) => bit(task, first, second),
        Mnemonic::Movep => movep(size, first, second),
        Mnemonic::Move => moved(size, first, second),
        Mnemonic::Movea => Op::Movea(size, register(second), mode(size, first)),
        Mnemonic::Movem => movem(size, first, second),
        Mnemonic::Unary(task) => Op::Unary(task, size, mode(size, first)),
        Mnemonic::Nbcd => Op::Nbcd(mode(Size::Byte, first)),
        Mnemonic::Swap => Op::Swap(register(first)),
        Mnemonic::Ext => Op::Ext(size, register(first)),
        Mnemonic::Pea => Op::Pea(mode(Size::Long, first)),
        Mnemonic::Tst => Op::Tst(size, mode(size, first)),
        Mnemonic::Tas => Op::Tas(mode(Size::Byte, first)),
        Mnemonic::Trap => Op::Trap((number(first) % 16) as u8),
        Mnemonic::Link => Op::Link(register(first), low_word(second)),
        Mnemonic::Unlk => Op::Unlk(register(first)),
        Mnemonic::Reset => Op::Reset,
        Mnemonic::Stop => Op::Stop(low_word(first)),
        Mnemonic::Rte => Op::Rte,
        Mnemonic::Rts => Op::Rts,
        Mnemonic::Trapv => Op::Trapv,
        Mnemonic::Rtr => Op::Rtr,
        Mnemonic::Jsr => Op::Jsr(mode(Size::Long, first)),
        Mnemonic::Jmp => Op::Jmp(mode(Size::Long, first)),
        Mnemonic::Lea => Op::Lea(register(second), mode(Size::Long, first)),
        Mnemonic::Chk => Op::Chk(register(second), mode(Size::Word, first)),
        Mnemonic::Quick(task) => Op::Quick(task, size, quick(first), mode(size, second)),
        Mnemonic::Scc(condition) => Op::Scc(condition, mode(Size::Byte, first)),
        Mnemonic::Dbcc(condition) => Op::Dbcc(condition, register(first), by_word(at, second)),
        Mnemonic::Bra => Op::Bra(displacement(size, at, first)),
        Mnemonic::Bsr => Op::Bsr(displacement(size, at, first)),
        Mnemonic::Bcc(condition) => Op::Bcc(condition, displacement(size, at, first)),
        Mnemonic::Moveq => Op::Moveq(register(second), low_byte(first)),
        Mnemonic::Divu => Op::Divu(register(second), mode(Size::Word, first)),
        Mnemonic::Divs => Op::Divs(register(second), mode(Size::Word, first)),
        Mnemonic::Decimal(task) => Op::Decimal(
            task,
            mode(Size::Byte, first),
            mode(Size::Byte, second),
        ),
        Mnemonic::Extended(task) => Op::Extended(task, size, mode(size, first), mode(size, second)),
        Mnemonic::Sum(task) => sum(task, size, first, second),
        Mnemonic::ToAddress(task) => Op::ToAddress(task, size, register(second), mode(size, first)),
        Mnemonic::Cmp => Op::Cmp(size, register(second), mode(size, first)),
        Mnemonic::Cmpa => Op::Cmpa(size, register(second), mode(size, first)),
        Mnemonic::Eor => Op::Eor(size, register(first), mode(size, second)),
        Mnemonic::Cmpm => Op::Cmpm(size, base(second), base(first)),
        Mnemonic::Mulu => Op::Mulu(register(second), mode(Size::Word, first)),
        Mnemonic::Muls => Op::Muls(register(second), mode(Size::Word, first)),
        Mnemonic::Exg => Op::Exg(either(first), either(second)),
        Mnemonic::Shift(task) => shift(task, size, first, second),
    }
}

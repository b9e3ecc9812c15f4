//! The instruction that a mnemonic and the forms of two operands name.

ghost use Rattle.std.specs.Prelude.{◌≡◌};
ghost use Rattle.asm_z80.specs.Building as building;
ghost use Rattle.asm_z80.specs.Forms.{seen};

use crate::form::Form80;
use crate::form_values::{
    byte, condition, distance, index, is_at_number, is_at_word, is_nothing, names_pair,
    names_special, number, pair, place, word, word_in,
};
use crate::mnemonic::Mnemonic80;
use crate::words::{bit_of, is_af, is_index, mode_of, special_of};
use z80_decode::{Op80, Task80};

fn load_pair(first: Form80<'_>, second: Form80<'_>) -> Op80
    ensures { result ≡ building.load_pair (seen first.entry) (seen second.entry) }
{
    if names_pair(second) {
        Op80::LoadStackPointer(index(second))
    } else if is_at_number(second) {
        if is_index(word_in(first)) {
            Op80::LoadIndex(index(first), word(second))
        } else {
            Op80::LoadPairExtended(pair(first), word(second))
        }
    } else {
        Op80::LoadPair(pair(first), word(second))
    }
}

fn store_pair(first: Form80<'_>, second: Form80<'_>) -> Op80
    ensures { result ≡ building.store_pair (seen first.entry) (seen second.entry) }
{
    if is_index(word_in(second)) {
        Op80::StoreIndex(word(first), index(second))
    } else {
        Op80::StorePairExtended(word(first), pair(second))
    }
}

fn load(first: Form80<'_>, second: Form80<'_>) -> Op80
    ensures { result ≡ building.load (seen first.entry) (seen second.entry) }
{
    if names_pair(first) {
        load_pair(first, second)
    } else if names_pair(second) {
        store_pair(first, second)
    } else if names_special(first) {
        Op80::LoadToSpecial(special_of(word_in(first)))
    } else if names_special(second) {
        Op80::LoadFromSpecial(special_of(word_in(second)))
    } else {
        Op80::Load(place(first), place(second))
    }
}

fn exchange(first: Form80<'_>, second: Form80<'_>) -> Op80
    ensures { result ≡ building.exchange (seen first.entry) (seen second.entry) }
{
    if is_at_word(first) {
        Op80::ExchangeStack(index(second))
    } else if is_af(word_in(first)) {
        Op80::ExchangeAf
    } else {
        Op80::ExchangeDeHl
    }
}

fn jump(first: Form80<'_>, second: Form80<'_>) -> Op80
    ensures { result ≡ building.jump (seen first.entry) (seen second.entry) }
{
    if is_at_word(first) {
        Op80::JumpIndex(index(first))
    } else if is_nothing(second) {
        Op80::Jump(word(first))
    } else {
        Op80::JumpIf(condition(first), word(second))
    }
}

fn relative(at: u16, first: Form80<'_>, second: Form80<'_>) -> Op80
    ensures { result ≡ building.relative at (seen first.entry) (seen second.entry) }
{
    if is_nothing(second) {
        Op80::JumpRelative(distance(at, number(first)))
    } else {
        Op80::JumpRelativeIf(condition(first), distance(at, number(second)))
    }
}

fn call(first: Form80<'_>, second: Form80<'_>) -> Op80
    ensures { result ≡ building.call (seen first.entry) (seen second.entry) }
{
    if is_nothing(second) {
        Op80::Call(word(first))
    } else {
        Op80::CallIf(condition(first), word(second))
    }
}

fn returned(first: Form80<'_>) -> Op80
    ensures { result ≡ building.return (seen first.entry) }
{
    if is_nothing(first) {
        Op80::Return
    } else {
        Op80::ReturnIf(condition(first))
    }
}

fn add(first: Form80<'_>, second: Form80<'_>) -> Op80
    ensures { result ≡ building.add (seen first.entry) (seen second.entry) }
{
    if names_pair(first) {
        Op80::AddPair(index(first), pair(second))
    } else {
        Op80::Arithmetic(Task80::Add, place(second))
    }
}

fn add_with_carry(first: Form80<'_>, second: Form80<'_>) -> Op80
    ensures { result ≡ building.add_with_carry (seen first.entry) (seen second.entry) }
{
    if names_pair(first) {
        Op80::AddPairWithCarry(pair(second))
    } else {
        Op80::Arithmetic(Task80::Adc, place(second))
    }
}

fn subtract_with_carry(first: Form80<'_>, second: Form80<'_>) -> Op80
    ensures { result ≡ building.subtract_with_carry (seen first.entry) (seen second.entry) }
{
    if names_pair(first) {
        Op80::SubtractPairWithCarry(pair(second))
    } else {
        Op80::Arithmetic(Task80::Sbc, place(second))
    }
}

fn increment(first: Form80<'_>) -> Op80
    ensures { result ≡ building.increment (seen first.entry) }
{
    if names_pair(first) {
        Op80::IncrementPair(pair(first))
    } else {
        Op80::Step(Task80::Inc, place(first))
    }
}

fn decrement(first: Form80<'_>) -> Op80
    ensures { result ≡ building.decrement (seen first.entry) }
{
    if names_pair(first) {
        Op80::DecrementPair(pair(first))
    } else {
        Op80::Step(Task80::Dec, place(first))
    }
}

fn input(first: Form80<'_>, second: Form80<'_>) -> Op80
    ensures { result ≡ building.input (seen first.entry) (seen second.entry) }
{
    if is_at_number(second) {
        Op80::InputAtNumber(byte(second))
    } else {
        Op80::Input(place(first))
    }
}

fn output(first: Form80<'_>, second: Form80<'_>) -> Op80
    ensures { result ≡ building.output (seen first.entry) (seen second.entry) }
{
    if is_at_number(first) {
        Op80::OutputAtNumber(byte(first))
    } else {
        Op80::Output(place(second))
    }
}

/// The instruction of a mnemonic and two operands, at an address. It is total: operands that do not fit give some
/// instruction, and the round-trip check refuses it.
#[tactic(auto, unfolding(crate::specs::Building::built))]
pub(crate) fn built(mnemonic: Mnemonic80, first: Form80<'_>, second: Form80<'_>, at: u16) -> Op80
    ensures { result ≡ building.built mnemonic (seen first.entry) (seen second.entry) at }
{
    match mnemonic {
        Mnemonic80::Alone(op) => op,
        Mnemonic80::Load => load(first, second),
        Mnemonic80::Push => Op80::Push(pair(first)),
        Mnemonic80::Pop => Op80::Pop(pair(first)),
        Mnemonic80::Exchange => exchange(first, second),
        Mnemonic80::Add => add(first, second),
        Mnemonic80::AddWithCarry => add_with_carry(first, second),
        Mnemonic80::SubtractWithCarry => subtract_with_carry(first, second),
        Mnemonic80::Arithmetic(task) => Op80::Arithmetic(task, place(first)),
        Mnemonic80::Increment => increment(first),
        Mnemonic80::Decrement => decrement(first),
        Mnemonic80::SetInterruptMode => Op80::SetInterruptMode(mode_of(word_in(first))),
        Mnemonic80::Change(task) => Op80::Change(task, place(first)),
        Mnemonic80::ResetBit => Op80::Change(Task80::Res(bit_of(word_in(first))), place(second)),
        Mnemonic80::SetBit => Op80::Change(Task80::Set(bit_of(word_in(first))), place(second)),
        Mnemonic80::TestBit => Op80::TestBit(bit_of(word_in(first)), place(second)),
        Mnemonic80::Jump => jump(first, second),
        Mnemonic80::JumpRelative => relative(at, first, second),
        Mnemonic80::DecrementAndJump => Op80::DecrementAndJump(distance(at, number(first))),
        Mnemonic80::Call => call(first, second),
        Mnemonic80::Return => returned(first),
        Mnemonic80::Restart => Op80::Restart(byte(first)),
        Mnemonic80::Input => input(first, second),
        Mnemonic80::Output => output(first, second),
    }
}

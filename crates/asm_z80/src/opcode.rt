ghost use Rattle.std.specs.Prelude.{◌≡◌};
ghost use Rattle.asm_z80.specs.Encoding80 as encoding;

use crate::codes::{
    accumulator_code, arithmetic_code, bit_code, block_code, change_code, changed_code,
    computed_code, condition_code, displaced_code, load_code, lone_code, mode_code, pair_code,
    place_code, special_code, step_code,
};
use z80_decode::Op80;

/// The opcode of an instruction.
#[tactic(auto, unfolding(crate::specs::Encoding80::opcode_of))]
pub(crate) fn opcode_of(op: Op80) -> u8
    ensures { result ≡ encoding.opcode_of op }
{
    match op {
        Op80::Load(target, source) => load_code(target, source),
        Op80::LoadFromSpecial(special) => 0x57 + special_code(special),
        Op80::LoadToSpecial(special) => 0x47 + special_code(special),
        Op80::LoadPair(pair, _) => 0x01 + pair_code(pair),
        Op80::LoadIndex(_, _) => 0x2a,
        Op80::LoadPairExtended(pair, _) => 0x4b + pair_code(pair),
        Op80::StoreIndex(_, _) => 0x22,
        Op80::StorePairExtended(_, pair) => 0x43 + pair_code(pair),
        Op80::LoadStackPointer(_) => 0xf9,
        Op80::Push(pair) => 0xc5 + pair_code(pair),
        Op80::Pop(pair) => 0xc1 + pair_code(pair),
        Op80::ExchangeDeHl => 0xeb,
        Op80::ExchangeAf => 0x08,
        Op80::ExchangeAll => 0xd9,
        Op80::ExchangeStack(_) => 0xe3,
        Op80::BlockLoad(steps) => 0xa0 + block_code(steps),
        Op80::BlockCompare(steps) => 0xa1 + block_code(steps),
        Op80::Arithmetic(task, source) => computed_code(arithmetic_code(task), source),
        Op80::Step(task, place) => step_code(task) + 8 * place_code(place),
        Op80::Accumulator(task) => accumulator_code(task),
        Op80::Negate => 0x44,
        Op80::Nop => 0x00,
        Op80::Halt => 0x76,
        Op80::DisableInterrupts => 0xf3,
        Op80::EnableInterrupts => 0xfb,
        Op80::SetInterruptMode(mode) => mode_code(mode),
        Op80::AddPair(_, pair) => 0x09 + pair_code(pair),
        Op80::AddPairWithCarry(pair) => 0x4a + pair_code(pair),
        Op80::SubtractPairWithCarry(pair) => 0x42 + pair_code(pair),
        Op80::IncrementPair(pair) => 0x03 + pair_code(pair),
        Op80::DecrementPair(pair) => 0x0b + pair_code(pair),
        Op80::Change(task, place) => change_code(task) + changed_code(displaced_code(task), place),
        Op80::TestBit(bit, place) => 64 + bit_code(bit) + changed_code(6, place),
        Op80::RotateDigitsLeft => 0x6f,
        Op80::RotateDigitsRight => 0x67,
        Op80::Jump(_) => 0xc3,
        Op80::JumpIf(condition, _) => 0xc2 + condition_code(condition),
        Op80::JumpRelative(_) => 0x18,
        Op80::JumpRelativeIf(condition, _) => 0x20 + condition_code(condition),
        Op80::JumpIndex(_) => 0xe9,
        Op80::DecrementAndJump(_) => 0x10,
        Op80::Call(_) => 0xcd,
        Op80::CallIf(condition, _) => 0xc4 + condition_code(condition),
        Op80::Return => 0xc9,
        Op80::ReturnIf(condition) => 0xc0 + condition_code(condition),
        Op80::ReturnFromInterrupt => 0x4d,
        Op80::ReturnFromNonMaskable => 0x45,
        Op80::Restart(address) => 0xc7 + address / 8 % 8 * 8,
        Op80::InputAtNumber(_) => 0xdb,
        Op80::Input(place) => 0x40 + 8 * place_code(place),
        Op80::BlockInput(steps) => 0xa2 + block_code(steps),
        Op80::OutputAtNumber(_) => 0xd3,
        Op80::Output(place) => 0x41 + 8 * place_code(place),
        Op80::BlockOutput(steps) => 0xa3 + block_code(steps),
        Op80::LonePrefix(index) => lone_code(index),
        Op80::Undefined(code) => code,
    }
}

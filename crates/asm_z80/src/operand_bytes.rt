ghost use Rattle.std.specs.Prelude.{◌≡◌, ◌+◌, ◌≤◌, ◌++◌};
ghost use Rattle.arrayvec.specs.ArrayVec.{array_vec_len};
ghost use Rattle.asm_z80.specs.Encoding80 as encoding;

use crate::codes::{either, index_of, index_of_pair};
use arrayvec::ArrayVec;
use z80_decode::{Index, Op80, Place8};

/// The bytes of an instruction: at most four of those that bytes decode to.
pub type Bytes = ArrayVec<u8, 8>;

/// Appends a word, the low byte first.
fn put_word(bytes: &mut Bytes, n: u16)
    requires { array_vec_len bytes.old ≤ 6 }
    ensures items { bytes.new.items ≡ bytes.old.items ++ encoding.word_bytes n }
    ensures most { array_vec_len bytes.new ≤ array_vec_len bytes.old + 2 }
{
    bytes.push((n % 256) as u8);
    bytes.push((n / 256) as u8)
}

/// Appends the bytes of a place.
fn put_operand(bytes: &mut Bytes, place: Place8)
    requires { array_vec_len bytes.old ≤ 6 }
    ensures items { bytes.new.items ≡ bytes.old.items ++ encoding.operand_bytes place }
    ensures most { array_vec_len bytes.new ≤ array_vec_len bytes.old + 2 }
{
    match place {
        Place8::AtIx(by) | Place8::AtIy(by) => bytes.push(by),
        Place8::Number(n) => bytes.push(n),
        Place8::At(address) => put_word(bytes, address),
        Place8::A
        | Place8::B
        | Place8::C
        | Place8::D
        | Place8::E
        | Place8::H
        | Place8::L
        | Place8::Ixh
        | Place8::Ixl
        | Place8::Iyh
        | Place8::Iyl
        | Place8::AtBc
        | Place8::AtDe
        | Place8::AtHl => {}
    }
}

/// Appends what follows the opcode.
#[tactic(auto, unfolding(crate::specs::Encoding80::operands))]
pub(crate) fn put_operands(bytes: &mut Bytes, op: Op80)
    requires { array_vec_len bytes.old ≤ 4 }
    ensures { bytes.new.items ≡ bytes.old.items ++ encoding.operands op }
{
    match op {
        Op80::Load(target, source) => {
            put_operand(bytes, target);
            put_operand(bytes, source)
        }
        Op80::LoadFromSpecial(_)
        | Op80::LoadToSpecial(_)
        | Op80::LoadStackPointer(_)
        | Op80::Push(_)
        | Op80::Pop(_)
        | Op80::ExchangeDeHl
        | Op80::ExchangeAf
        | Op80::ExchangeAll
        | Op80::ExchangeStack(_)
        | Op80::BlockLoad(_)
        | Op80::BlockCompare(_)
        | Op80::Accumulator(_)
        | Op80::Negate
        | Op80::Nop
        | Op80::Halt
        | Op80::DisableInterrupts
        | Op80::EnableInterrupts
        | Op80::SetInterruptMode(_)
        | Op80::AddPair(_, _)
        | Op80::AddPairWithCarry(_)
        | Op80::SubtractPairWithCarry(_)
        | Op80::IncrementPair(_)
        | Op80::DecrementPair(_)
        | Op80::Change(_, _)
        | Op80::TestBit(_, _)
        | Op80::RotateDigitsLeft
        | Op80::RotateDigitsRight
        | Op80::JumpIndex(_)
        | Op80::Return
        | Op80::ReturnIf(_)
        | Op80::ReturnFromInterrupt
        | Op80::ReturnFromNonMaskable
        | Op80::Restart(_)
        | Op80::Input(_)
        | Op80::BlockInput(_)
        | Op80::Output(_)
        | Op80::BlockOutput(_)
        | Op80::LonePrefix(_)
        | Op80::Undefined(_) => {}
        Op80::LoadPair(_, n) => put_word(bytes, n),
        Op80::LoadIndex(_, address)
        | Op80::LoadPairExtended(_, address)
        | Op80::StoreIndex(address, _)
        | Op80::StorePairExtended(address, _)
        | Op80::Jump(address)
        | Op80::JumpIf(_, address)
        | Op80::Call(address)
        | Op80::CallIf(_, address) => put_word(bytes, address),
        Op80::Arithmetic(_, source) => put_operand(bytes, source),
        Op80::Step(_, place) => put_operand(bytes, place),
        Op80::JumpRelative(by) | Op80::JumpRelativeIf(_, by) | Op80::DecrementAndJump(by) =>
            bytes.push(by),
        Op80::InputAtNumber(port) | Op80::OutputAtNumber(port) => bytes.push(port),
    }
}

/// Appends the byte that makes IX or IY of HL.
fn put_index(bytes: &mut Bytes, index: Index)
    requires { array_vec_len bytes.old ≤ 0 }
    ensures items { bytes.new.items ≡ bytes.old.items ++ encoding.index_prefix index }
    ensures most { array_vec_len bytes.new ≤ 1 }
{
    match index {
        Index::Hl => {}
        Index::Ix => bytes.push(0xdd),
        Index::Iy => bytes.push(0xfd),
    }
}

/// Appends the bytes before an operation on bits.
fn put_bits(bytes: &mut Bytes, place: Place8)
    requires { array_vec_len bytes.old ≤ 0 }
    ensures items { bytes.new.items ≡ bytes.old.items ++ encoding.bits_prefix place }
    ensures most { array_vec_len bytes.new ≤ 3 }
{
    match place {
        Place8::AtIx(by) => {
            bytes.push(0xdd);
            bytes.push(0xcb);
            bytes.push(by)
        }
        Place8::AtIy(by) => {
            bytes.push(0xfd);
            bytes.push(0xcb);
            bytes.push(by)
        }
        _ => bytes.push(0xcb),
    }
}

/// Appends the bytes before the opcode.
#[tactic(auto, unfolding(crate::specs::Encoding80::prefixes))]
pub(crate) fn put_prefixes(bytes: &mut Bytes, op: Op80)
    requires { array_vec_len bytes.old ≤ 0 }
    ensures items { bytes.new.items ≡ bytes.old.items ++ encoding.prefixes op }
    ensures most { array_vec_len bytes.new ≤ 3 }
{
    match op {
        Op80::Load(target, source) => put_index(bytes, either(index_of(target), index_of(source))),
        Op80::LoadFromSpecial(_)
        | Op80::LoadToSpecial(_)
        | Op80::LoadPairExtended(_, _)
        | Op80::StorePairExtended(_, _)
        | Op80::BlockLoad(_)
        | Op80::BlockCompare(_)
        | Op80::Negate
        | Op80::SetInterruptMode(_)
        | Op80::AddPairWithCarry(_)
        | Op80::SubtractPairWithCarry(_)
        | Op80::RotateDigitsLeft
        | Op80::RotateDigitsRight
        | Op80::ReturnFromInterrupt
        | Op80::ReturnFromNonMaskable
        | Op80::Input(_)
        | Op80::BlockInput(_)
        | Op80::Output(_)
        | Op80::BlockOutput(_)
        | Op80::Undefined(_) => bytes.push(0xed),
        Op80::LoadPair(pair, _)
        | Op80::Push(pair)
        | Op80::Pop(pair)
        | Op80::IncrementPair(pair)
        | Op80::DecrementPair(pair) => put_index(bytes, index_of_pair(pair)),
        Op80::LoadIndex(index, _)
        | Op80::StoreIndex(_, index)
        | Op80::LoadStackPointer(index)
        | Op80::ExchangeStack(index)
        | Op80::AddPair(index, _)
        | Op80::JumpIndex(index) => put_index(bytes, index),
        Op80::ExchangeDeHl
        | Op80::ExchangeAf
        | Op80::ExchangeAll
        | Op80::Accumulator(_)
        | Op80::Nop
        | Op80::Halt
        | Op80::DisableInterrupts
        | Op80::EnableInterrupts
        | Op80::Jump(_)
        | Op80::JumpIf(_, _)
        | Op80::JumpRelative(_)
        | Op80::JumpRelativeIf(_, _)
        | Op80::DecrementAndJump(_)
        | Op80::Call(_)
        | Op80::CallIf(_, _)
        | Op80::Return
        | Op80::ReturnIf(_)
        | Op80::Restart(_)
        | Op80::InputAtNumber(_)
        | Op80::OutputAtNumber(_)
        | Op80::LonePrefix(_) => {}
        Op80::Arithmetic(_, source) => put_index(bytes, index_of(source)),
        Op80::Step(_, place) => put_index(bytes, index_of(place)),
        Op80::Change(_, place) | Op80::TestBit(_, place) => put_bits(bytes, place),
    }
}

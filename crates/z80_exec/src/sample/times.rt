ghost use Rattle.std.specs.Prelude.{◌≡◌, ◌≤◌};
ghost use Rattle.z80_exec.specs.Sample.Times as times;

use z80_decode::{Index, InterruptMode, Op80, Pair, Place8};

/// What a place's time depends on.
#[derive(Clone, Copy)]
pub enum Kind {
    /// A register of 8 bits.
    Register,
    /// A half of IX or IY.
    Half,
    /// (BC), (DE) or (HL).
    Indirect,
    /// (IX+d) or (IY+d).
    Displaced,
    /// (nn)
    Absolute,
    /// n
    Immediate,
}

/// The kind of a place.
fn kind_of(place: Place8) -> Kind
    ensures { result ≡ times.kind_of place }
{
    match place {
        Place8::A | Place8::B | Place8::C | Place8::D | Place8::E | Place8::H | Place8::L => {
            Kind::Register
        }
        Place8::Ixh | Place8::Ixl | Place8::Iyh | Place8::Iyl => Kind::Half,
        Place8::AtBc | Place8::AtDe | Place8::AtHl => Kind::Indirect,
        Place8::AtIx(_) | Place8::AtIy(_) => Kind::Displaced,
        Place8::At(_) => Kind::Absolute,
        Place8::Number(_) => Kind::Immediate,
    }
}

/// The clocks of LD of 8 bits.
#[tactic(auto, unfolding(crate::specs::Sample::Times::load_time))]
fn load_time(target: Kind, source: Kind) -> u32
    ensures { result ≡ times.load_time target source }
{
    match (target, source) {
        (Kind::Register, Kind::Register) => 4,
        (Kind::Register, Kind::Immediate | Kind::Indirect) => 7,
        (Kind::Indirect, Kind::Register) => 7,
        (Kind::Indirect, Kind::Immediate) => 10,
        (Kind::Register, Kind::Absolute) | (Kind::Absolute, Kind::Register) => 13,
        (Kind::Half, Kind::Immediate) => 11,
        (Kind::Half, _) | (Kind::Register, Kind::Half) => 8,
        (Kind::Register, Kind::Displaced) => 19,
        (Kind::Displaced, Kind::Register | Kind::Immediate) => 19,
        _ => 10,
    }
}

/// The clocks of an operation of A.
fn arithmetic_time(place: Kind) -> u32
    ensures { result ≡ times.arithmetic_time place }
{
    match place {
        Kind::Register => 4,
        Kind::Half => 8,
        Kind::Displaced => 19,
        _ => 7,
    }
}

/// The clocks of INC and DEC of 8 bits.
fn step_time(place: Kind) -> u32
    ensures { result ≡ times.step_time place }
{
    match place {
        Kind::Register => 4,
        Kind::Half => 8,
        Kind::Displaced => 23,
        _ => 11,
    }
}

/// The clocks of the rotates, shifts, RES and SET of the prefix CB.
fn change_time(place: Kind) -> u32
    ensures { result ≡ times.change_time place }
{
    match place {
        Kind::Register => 8,
        Kind::Displaced => 23,
        _ => 15,
    }
}

/// The clocks of BIT.
fn test_time(place: Kind) -> u32
    ensures { result ≡ times.test_time place }
{
    match place {
        Kind::Register => 8,
        Kind::Displaced => 20,
        _ => 12,
    }
}

/// What the prefix of an index register adds.
fn index_time(index: Index) -> u32
    ensures value { result ≡ times.index_time index }
    ensures most { result ≤ 4 }
{
    match index {
        Index::Hl => 0,
        Index::Ix | Index::Iy => 4,
    }
}

/// What the prefix adds that puts an index register in HL's place.
fn pair_time(pair: Pair) -> u32
    ensures value { result ≡ times.pair_time pair }
    ensures most { result ≤ 4 }
{
    match pair {
        Pair::Ix | Pair::Iy => 4,
        _ => 0,
    }
}

/// The clocks of one of two times.
fn either(taken: bool, longer: u32, shorter: u32) -> u32
    ensures { result ≡ times.either taken longer shorter }
{
    if taken { longer } else { shorter }
}

/// The clocks of an interrupt. Source: Zilog UM0080, "Interrupt Response".
pub fn interrupt_time(mode: InterruptMode) -> u32
    ensures { result ≡ times.interrupt_time mode }
{
    match mode {
        InterruptMode::Mode0 | InterruptMode::Mode1 => 13,
        InterruptMode::Mode2 => 19,
    }
}

/// The clocks of an instruction; of two times the longer where it was taken or continues.
///
/// Source: Zilog UM0080, "Z80 Instruction Description" (T states).
#[inline(always)]
pub fn time_of(op: Op80, taken: bool) -> u32
    ensures { result ≡ times.time_of op taken }
{
    match op {
        Op80::Load(target, source) => load_time(kind_of(target), kind_of(source)),
        Op80::LoadFromSpecial(_) | Op80::LoadToSpecial(_) => 9,
        Op80::LoadPair(pair, _) | Op80::Pop(pair) => 10 + pair_time(pair),
        Op80::LoadIndex(index, _) | Op80::StoreIndex(_, index) => 16 + index_time(index),
        Op80::LoadPairExtended(_, _) | Op80::StorePairExtended(_, _) => 20,
        Op80::LoadStackPointer(index) => 6 + index_time(index),
        Op80::Push(pair) => 11 + pair_time(pair),
        Op80::ExchangeDeHl | Op80::ExchangeAf | Op80::ExchangeAll => 4,
        Op80::ExchangeStack(index) => 19 + index_time(index),
        Op80::BlockLoad(_) | Op80::BlockCompare(_) | Op80::BlockInput(_) | Op80::BlockOutput(_) =>
            either(taken, 21, 16),
        Op80::Arithmetic(_, place) => arithmetic_time(kind_of(place)),
        Op80::Step(_, place) => step_time(kind_of(place)),
        Op80::Accumulator(_) | Op80::Nop | Op80::Halt | Op80::LonePrefix(_) => 4,
        Op80::DisableInterrupts | Op80::EnableInterrupts => 4,
        Op80::Negate | Op80::SetInterruptMode(_) | Op80::Undefined(_) => 8,
        Op80::AddPair(index, _) => 11 + index_time(index),
        Op80::AddPairWithCarry(_) | Op80::SubtractPairWithCarry(_) => 15,
        Op80::IncrementPair(pair) | Op80::DecrementPair(pair) => 6 + pair_time(pair),
        Op80::Change(_, place) => change_time(kind_of(place)),
        Op80::TestBit(_, place) => test_time(kind_of(place)),
        Op80::RotateDigitsLeft | Op80::RotateDigitsRight => 18,
        Op80::Jump(_) | Op80::JumpIf(_, _) | Op80::Return => 10,
        Op80::JumpRelative(_) => 12,
        Op80::JumpRelativeIf(_, _) => either(taken, 12, 7),
        Op80::JumpIndex(index) => 4 + index_time(index),
        Op80::DecrementAndJump(_) => either(taken, 13, 8),
        Op80::Call(_) => 17,
        Op80::CallIf(_, _) => either(taken, 17, 10),
        Op80::ReturnIf(_) => either(taken, 11, 5),
        Op80::ReturnFromInterrupt | Op80::ReturnFromNonMaskable => 14,
        Op80::Restart(_) | Op80::InputAtNumber(_) | Op80::OutputAtNumber(_) => 11,
        Op80::Input(_) | Op80::Output(_) => 12,
    }
}

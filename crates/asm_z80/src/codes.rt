ghost use Rattle.std.specs.Prelude.{◌≡◌, ◌≤◌};
ghost use Rattle.asm_z80.specs.Encoding80 as encoding;

use z80_decode::{Bit, Block, Condition, Index, InterruptMode, Pair, Place8, Special, Task80};

/// The code of r.
pub(crate) fn place_code(place: Place8) -> u8
    ensures value { result ≡ encoding.place_code place }
    ensures most { result ≤ 7 }
{
    match place {
        Place8::B => 0,
        Place8::C => 1,
        Place8::D => 2,
        Place8::E => 3,
        Place8::H | Place8::Ixh | Place8::Iyh => 4,
        Place8::L | Place8::Ixl | Place8::Iyl => 5,
        Place8::A => 7,
        _ => 6,
    }
}

/// The register that its prefix makes of HL.
pub(crate) fn index_of(place: Place8) -> Index
    ensures { result ≡ encoding.index_of place }
{
    match place {
        Place8::Ixh | Place8::Ixl | Place8::AtIx(_) => Index::Ix,
        Place8::Iyh | Place8::Iyl | Place8::AtIy(_) => Index::Iy,
        _ => Index::Hl,
    }
}

/// The one of two that is an index register.
pub(crate) fn either(one: Index, other: Index) -> Index
    ensures { result ≡ encoding.either one other }
{
    match one {
        Index::Hl => other,
        Index::Ix | Index::Iy => one,
    }
}

/// The register that its prefix makes of HL.
pub(crate) fn index_of_pair(pair: Pair) -> Index
    ensures { result ≡ encoding.index_of_pair pair }
{
    match pair {
        Pair::Ix => Index::Ix,
        Pair::Iy => Index::Iy,
        _ => Index::Hl,
    }
}

/// dd, qq and ss, in bits 5 and 4.
pub(crate) fn pair_code(pair: Pair) -> u8
    ensures value { result ≡ encoding.pair_code pair }
    ensures most { result ≤ 48 }
{
    match pair {
        Pair::Bc => 0,
        Pair::De => 16,
        Pair::Hl | Pair::Ix | Pair::Iy => 32,
        Pair::Sp | Pair::Af => 48,
    }
}

/// cc, in bits 5 to 3.
pub(crate) fn condition_code(condition: Condition) -> u8
    ensures value { result ≡ encoding.condition_code condition }
    ensures most { result ≤ 56 }
{
    match condition {
        Condition::NonZero => 0,
        Condition::Zero => 8,
        Condition::NonCarry => 16,
        Condition::Carry => 24,
        Condition::ParityOdd => 32,
        Condition::ParityEven => 40,
        Condition::Positive => 48,
        Condition::Negative => 56,
    }
}

/// b, in bits 5 to 3.
pub(crate) fn bit_code(bit: Bit) -> u8
    ensures value { result ≡ encoding.bit_code bit }
    ensures most { result ≤ 56 }
{
    match bit {
        Bit::Bit0 => 0,
        Bit::Bit1 => 8,
        Bit::Bit2 => 16,
        Bit::Bit3 => 24,
        Bit::Bit4 => 32,
        Bit::Bit5 => 40,
        Bit::Bit6 => 48,
        Bit::Bit7 => 56,
    }
}

/// How a block instruction steps, in bits 4 and 3.
pub(crate) fn block_code(steps: Block) -> u8
    ensures value { result ≡ encoding.block_code steps }
    ensures most { result ≤ 24 }
{
    match steps {
        Block::Increment => 0,
        Block::Decrement => 8,
        Block::IncrementRepeat => 16,
        Block::DecrementRepeat => 24,
    }
}

/// An operation on A, in bits 5 to 3.
pub(crate) fn arithmetic_code(task: Task80) -> u8
    ensures value { result ≡ encoding.arithmetic_code task }
    ensures most { result ≤ 56 }
{
    match task {
        Task80::Adc => 8,
        Task80::Sub => 16,
        Task80::Sbc => 24,
        Task80::And => 32,
        Task80::Xor => 40,
        Task80::Or => 48,
        Task80::Cp => 56,
        _ => 0,
    }
}

/// INC or DEC.
pub(crate) fn step_code(task: Task80) -> u8
    ensures value { result ≡ encoding.step_code task }
    ensures most { result ≤ 5 }
{
    match task {
        Task80::Dec => 5,
        _ => 4,
    }
}

/// The opcode of an operation on A alone.
pub(crate) fn accumulator_code(task: Task80) -> u8
    ensures value { result ≡ encoding.accumulator_code task }
    ensures most { result ≤ 63 }
{
    match task {
        Task80::Rrca => 0xf,
        Task80::Rla => 0x17,
        Task80::Rra => 0x1f,
        Task80::Daa => 0x27,
        Task80::Cpl => 0x2f,
        Task80::Scf => 0x37,
        Task80::Ccf => 0x3f,
        _ => 0x07,
    }
}

/// An operation of the prefix CB that writes.
pub(crate) fn change_code(task: Task80) -> u8
    ensures value { result ≡ encoding.change_code task }
    ensures most { result ≤ 248 }
{
    match task {
        Task80::Rrc => 8,
        Task80::Rl => 16,
        Task80::Rr => 24,
        Task80::Sla => 32,
        Task80::Sra => 40,
        Task80::Sll => 48,
        Task80::Srl => 56,
        Task80::Res(bit) => 128 + bit_code(bit),
        Task80::Set(bit) => 192 + bit_code(bit),
        _ => 0,
    }
}

/// I or R, in bit 3.
pub(crate) fn special_code(special: Special) -> u8
    ensures value { result ≡ encoding.special_code special }
    ensures most { result ≤ 8 }
{
    match special {
        Special::Interrupt => 0,
        Special::Refresh => 8,
    }
}

/// The opcode of IM.
pub(crate) fn mode_code(mode: InterruptMode) -> u8
    ensures value { result ≡ encoding.mode_code mode }
    ensures most { result ≤ 94 }
{
    match mode {
        InterruptMode::Mode0 => 0x46,
        InterruptMode::Mode1 => 0x56,
        InterruptMode::Mode2 => 0x5e,
    }
}

/// The code of (HL) after a displacement.
pub(crate) fn displaced_code(task: Task80) -> u8
    ensures value { result ≡ encoding.displaced_code task }
    ensures most { result ≤ 6 }
{
    match task {
        Task80::Sll => 0,
        _ => 6,
    }
}

/// The code of a place, or that of (HL) after a displacement.
pub(crate) fn changed_code(displaced: u8, place: Place8) -> u8
    requires { displaced ≤ 7 }
    ensures value { result ≡ encoding.changed_code displaced place }
    ensures most { result ≤ 7 }
{
    match place {
        Place8::AtIx(_) | Place8::AtIy(_) => displaced,
        _ => place_code(place),
    }
}

/// LD of 8 bits from a source into a register or (HL).
pub(crate) fn source_code(target: u8, source: Place8) -> u8
    requires { target ≤ 7 }
    ensures value { result ≡ encoding.source_code target source }
    ensures most { result ≤ 127 }
{
    match source {
        Place8::AtBc => 0x0a,
        Place8::AtDe => 0x1a,
        Place8::At(_) => 0x3a,
        Place8::Number(_) => 0x06 + 8 * target,
        _ => 0x40 + 8 * target + place_code(source),
    }
}

/// LD of 8 bits.
pub(crate) fn load_code(target: Place8, source: Place8) -> u8
    ensures value { result ≡ encoding.load_code target source }
    ensures most { result ≤ 127 }
{
    match target {
        Place8::AtBc => 0x02,
        Place8::AtDe => 0x12,
        Place8::At(_) => 0x32,
        _ => source_code(place_code(target), source),
    }
}

/// An operation of A and an operand.
pub(crate) fn computed_code(task: u8, source: Place8) -> u8
    requires { task ≤ 56 }
    ensures value { result ≡ encoding.computed_code task source }
    ensures most { result ≤ 254 }
{
    match source {
        Place8::Number(_) => 0xc6 + task,
        _ => 0x80 + task + place_code(source),
    }
}

/// A prefix alone.
pub(crate) fn lone_code(index: Index) -> u8
    ensures value { result ≡ encoding.lone_code index }
    ensures most { result ≤ 253 }
{
    match index {
        Index::Iy => 0xfd,
        Index::Hl | Index::Ix => 0xdd,
    }
}

ghost use Rattle.std.specs.Prelude.{◌≡◌, ◌≤◌};
ghost use Rattle.z80_decode.specs.Fields as fields;
ghost use Rattle.z80_decode.specs.Nested as nested;
ghost use Rattle.z80_decode.specs.Lines.{prefixes_of};

use crate::{Bit, Condition, Index, Pair, Place8, Task80};

/// A word of two bytes, the low one first.
pub fn word(low: u8, high: u8) -> u16
    ensures { result ≡ fields.word low high }
{
    u16::from(high) << 8 | u16::from(low)
}

/// (HL), or the displaced place that takes its place.
pub fn memory(index: Index, displacement: u8) -> Place8
    ensures { result ≡ fields.memory_of index displacement }
{
    match index {
        Index::Hl => Place8::AtHl,
        Index::Ix => Place8::AtIx(displacement),
        Index::Iy => Place8::AtIy(displacement),
    }
}

/// How many bytes of displacement (HL) or what takes its place has.
pub fn displacements(index: Index) -> u8
    ensures value { result ≡ prefixes_of index }
    ensures most { result ≤ 1 }
{
    match index {
        Index::Hl => 0,
        Index::Ix | Index::Iy => 1,
    }
}

/// How many bytes of displacement the place with the code r has.
pub fn displaced(index: Index, code: u8) -> u8
    ensures value { result ≡ nested.displaced index code }
    ensures most { result ≤ 1 }
{
    if code == 6 { displacements(index) } else { 0 }
}

/// H, or the half that takes its place.
fn high_half(index: Index) -> Place8
    ensures { result ≡ fields.high_half_of index }
{
    match index {
        Index::Hl => Place8::H,
        Index::Ix => Place8::Ixh,
        Index::Iy => Place8::Iyh,
    }
}

/// L, or the half that takes its place.
fn low_half(index: Index) -> Place8
    ensures { result ≡ fields.low_half_of index }
{
    match index {
        Index::Hl => Place8::L,
        Index::Ix => Place8::Ixl,
        Index::Iy => Place8::Iyl,
    }
}

/// The place with the code r.
#[tactic(auto, unfolding(crate::specs::Fields::place_of))]
pub fn place(index: Index, code: u8, displacement: u8) -> Place8
    ensures { result ≡ fields.place_of index code displacement }
{
    match code {
        0 => Place8::B,
        1 => Place8::C,
        2 => Place8::D,
        3 => Place8::E,
        4 => high_half(index),
        5 => low_half(index),
        6 => memory(index, displacement),
        _ => Place8::A,
    }
}

/// HL, or the register that takes its place.
pub fn register(index: Index) -> Pair
    ensures { result ≡ fields.register_of index }
{
    match index {
        Index::Hl => Pair::Hl,
        Index::Ix => Pair::Ix,
        Index::Iy => Pair::Iy,
    }
}

/// The pair with the code dd or ss.
#[tactic(auto, unfolding(crate::specs::Fields::pair_of))]
pub fn pair_of(index: Index, code: u8) -> Pair
    ensures { result ≡ fields.pair_of index code }
{
    match code {
        0 => Pair::Bc,
        1 => Pair::De,
        2 => register(index),
        _ => Pair::Sp,
    }
}

/// The pair with the code qq.
#[tactic(auto, unfolding(crate::specs::Fields::stacked_of))]
pub fn stacked(index: Index, code: u8) -> Pair
    ensures { result ≡ fields.stacked_of index code }
{
    match code {
        0 => Pair::Bc,
        1 => Pair::De,
        2 => register(index),
        _ => Pair::Af,
    }
}

/// The condition with the code cc.
#[tactic(auto, unfolding(crate::specs::Fields::condition_of))]
pub fn condition_of(code: u8) -> Condition
    ensures { result ≡ fields.condition_of code }
{
    match code {
        0 => Condition::NonZero,
        1 => Condition::Zero,
        2 => Condition::NonCarry,
        3 => Condition::Carry,
        4 => Condition::ParityOdd,
        5 => Condition::ParityEven,
        6 => Condition::Positive,
        _ => Condition::Negative,
    }
}

/// The bit of the number b.
#[tactic(auto, unfolding(crate::specs::Fields::bit_of))]
pub fn bit(number: u8) -> Bit
    ensures { result ≡ fields.bit_of number }
{
    match number {
        0 => Bit::Bit0,
        1 => Bit::Bit1,
        2 => Bit::Bit2,
        3 => Bit::Bit3,
        4 => Bit::Bit4,
        5 => Bit::Bit5,
        6 => Bit::Bit6,
        _ => Bit::Bit7,
    }
}

/// An operation of A and an operand.
#[tactic(auto, unfolding(crate::specs::Nested::arithmetic))]
pub fn arithmetic(code: u8) -> Task80
    ensures { result ≡ nested.arithmetic code }
{
    match code {
        0 => Task80::Add,
        1 => Task80::Adc,
        2 => Task80::Sub,
        3 => Task80::Sbc,
        4 => Task80::And,
        5 => Task80::Xor,
        6 => Task80::Or,
        _ => Task80::Cp,
    }
}

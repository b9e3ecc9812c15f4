ghost use Rattle.std.specs.Prelude.{◌≡◌, string_bytes};
ghost use Rattle.md_disasm.specs.Appends.{Appends};
ghost use Rattle.md_disasm.specs.Operands80 as operands;
ghost use Rattle.md_disasm.specs.declared.operand80.Operand80.TheVariants as variants;

use crate::digits::{put_marked_byte, put_marked_word};
use md_word::NoMemory;
use z80_decode::{Bit, Condition, Index, InterruptMode, Pair, Place8, Special};

/// An operand of the Z80's assembler.
#[derive(Clone, Copy)]
pub enum Operand80 {
    /// No operand.
    Nothing,
    /// An operand of 8 bits.
    Place(Place8),
    /// A register of 16 bits.
    Register(Pair),
    /// The place in memory that a register of 16 bits names.
    AtRegister(Pair),
    /// AF'
    OtherAf,
    /// I or R.
    Special(Special),
    /// The condition of a jump, a call or a return.
    Condition(Condition),
    /// The number of a bit.
    Bit(Bit),
    /// The number of a mode of interrupts.
    Mode(InterruptMode),
    /// A number of 8 bits.
    Byte(u8),
    /// The port of this number.
    Port(u8),
    /// The port that C names.
    PortC,
    /// A number of 16 bits.
    Word(u16),
    /// The place in memory of this address.
    AtWord(u16),
    /// A byte, and a number of 16 bits with its low byte first.
    ByteAndWord(u8, u16),
}

/// The register that the prefix selects.
pub(crate) fn register(index: Index) -> Pair
    ensures { result ≡ operands.register index }
{
    match index {
        Index::Hl => Pair::Hl,
        Index::Ix => Pair::Ix,
        Index::Iy => Pair::Iy,
    }
}

fn pair_name(pair: Pair) -> &'static str
    ensures { result.now ≡ operands.pair_name pair }
{
    match pair {
        Pair::Bc => "bc",
        Pair::De => "de",
        Pair::Hl => "hl",
        Pair::Sp => "sp",
        Pair::Af => "af",
        Pair::Ix => "ix",
        Pair::Iy => "iy",
    }
}

fn special_name(special: Special) -> &'static str
    ensures { result.now ≡ operands.special_name special }
{
    match special {
        Special::Interrupt => "i",
        Special::Refresh => "r",
    }
}

fn condition_name(condition: Condition) -> &'static str
    ensures { result.now ≡ operands.condition_name condition }
{
    match condition {
        Condition::NonZero => "nz",
        Condition::Zero => "z",
        Condition::NonCarry => "nc",
        Condition::Carry => "c",
        Condition::ParityOdd => "po",
        Condition::ParityEven => "pe",
        Condition::Positive => "p",
        Condition::Negative => "m",
    }
}

fn bit_name(bit: Bit) -> &'static str
    ensures { result.now ≡ operands.bit_name bit }
{
    match bit {
        Bit::Bit0 => "0",
        Bit::Bit1 => "1",
        Bit::Bit2 => "2",
        Bit::Bit3 => "3",
        Bit::Bit4 => "4",
        Bit::Bit5 => "5",
        Bit::Bit6 => "6",
        Bit::Bit7 => "7",
    }
}

fn mode_name(mode: InterruptMode) -> &'static str
    ensures { result.now ≡ operands.mode_name mode }
{
    match mode {
        InterruptMode::Mode0 => "0",
        InterruptMode::Mode1 => "1",
        InterruptMode::Mode2 => "2",
    }
}

/// Appends the text of an operand of 8 bits. It fails where there is no memory for it.
fn put_place(text: &mut String, place: Place8) -> Result<(), NoMemory>
    ensures { Appends result (string_bytes text.old) (string_bytes text.new) (operands.place_text place) }
{
    match place {
        Place8::A => text.push_str("a"),
        Place8::B => text.push_str("b"),
        Place8::C => text.push_str("c"),
        Place8::D => text.push_str("d"),
        Place8::E => text.push_str("e"),
        Place8::H => text.push_str("h"),
        Place8::L => text.push_str("l"),
        Place8::Ixh => text.push_str("ixh"),
        Place8::Ixl => text.push_str("ixl"),
        Place8::Iyh => text.push_str("iyh"),
        Place8::Iyl => text.push_str("iyl"),
        Place8::AtBc => text.push_str("(bc)"),
        Place8::AtDe => text.push_str("(de)"),
        Place8::AtHl => text.push_str("(hl)"),
        Place8::AtIx(displacement) => put_marked_byte(text, "(ix+$", displacement, ")"),
        Place8::AtIy(displacement) => put_marked_byte(text, "(iy+$", displacement, ")"),
        Place8::At(address) => put_marked_word(text, "($", address, ")"),
        Place8::Number(n) => put_marked_byte(text, "$", n, ""),
    }
}

/// Appends three bytes. It fails where there is no memory for it.
fn put_bytes(text: &mut String, first: u8, second: u8, third: u8) -> Result<(), NoMemory>
    ensures { Appends result (string_bytes text.old) (string_bytes text.new) (operands.bytes_text first second third) }
{
    put_marked_byte(text, "$", first, ",")?;
    put_marked_byte(text, "$", second, ",")?;
    put_marked_byte(text, "$", third, "")
}

/// Appends a byte and the two bytes of a number of 16 bits, the low one first.
/// It fails where there is no memory for it.
fn put_byte_and_word(text: &mut String, byte: u8, word: u16) -> Result<(), NoMemory>
    ensures { Appends result (string_bytes text.old) (string_bytes text.new) (operands.operand_text (variants.ByteAndWord byte word)) }
{
    put_bytes(text, byte, (word & 0xff) as u8, (word >> 8) as u8)
}

/// Appends the register of 16 bits in brackets. It fails where there is no memory for it.
fn put_at_register(text: &mut String, pair: Pair) -> Result<(), NoMemory>
    ensures { Appends result (string_bytes text.old) (string_bytes text.new) (operands.operand_text (variants.AtRegister pair)) }
{
    text.push_str("(")?;
    text.push_str(pair_name(pair))?;
    text.push_str(")")
}

/// Appends the text of an operand. It fails where there is no memory for it.
pub(crate) fn put_operand(text: &mut String, operand: Operand80) -> Result<(), NoMemory>
    ensures { Appends result (string_bytes text.old) (string_bytes text.new) (operands.operand_text operand) }
{
    match operand {
        Operand80::Nothing => Ok(()),
        Operand80::Place(place) => put_place(text, place),
        Operand80::Register(pair) => text.push_str(pair_name(pair)),
        Operand80::AtRegister(pair) => put_at_register(text, pair),
        Operand80::OtherAf => text.push_str("af'"),
        Operand80::Special(special) => text.push_str(special_name(special)),
        Operand80::Condition(condition) => text.push_str(condition_name(condition)),
        Operand80::Bit(bit) => text.push_str(bit_name(bit)),
        Operand80::Mode(mode) => text.push_str(mode_name(mode)),
        Operand80::Byte(n) => put_marked_byte(text, "$", n, ""),
        Operand80::Port(n) => put_marked_byte(text, "($", n, ")"),
        Operand80::PortC => text.push_str("(c)"),
        Operand80::Word(n) => put_marked_word(text, "$", n, ""),
        Operand80::AtWord(address) => put_marked_word(text, "($", address, ")"),
        Operand80::ByteAndWord(byte, word) => put_byte_and_word(text, byte, word),
    }
}

ghost use Rattle.std.specs.Prelude.{◌≡◌, ◌<◌, ◌≤◌, ◌/◌, ◌%◌};
ghost use Rattle.md_word.specs.Width.{modulus_of};
ghost use Rattle.md_word.specs.Fields.{bit_of};
ghost use Rattle.m68k_decode.specs.Fields as fields;

use crate::{Condition, Displacement};
use md_word::{Size, Task};

/// The register in bits 11 to 9.
#[tactic(auto, unfolding(crate::specs::Fields::high_register))]
pub fn high_register(words: &[u16; 5]) -> u8
    ensures value { result ≡ fields.high_register words.now }
    ensures below { result < 8 }
{
    let word = words[0];
    (word >> 9 & 7) as u8
}

/// The register in bits 2 to 0.
#[tactic(auto, unfolding(crate::specs::Fields::low_register))]
pub fn low_register(words: &[u16; 5]) -> u8
    ensures value { result ≡ fields.low_register words.now }
    ensures below { result < 8 }
{
    let word = words[0];
    (word & 7) as u8
}

/// The low byte of the first word.
pub fn low_byte(words: &[u16; 5]) -> u8
    ensures { result ≡ fields.opcode words.now % 256 }
{
    let word = words[0];
    (word & 0xff) as u8
}

/// The size in bits 7 and 6: byte, word, long.
#[tactic(auto, unfolding(crate::specs::Fields::size_of))]
pub fn size(words: &[u16; 5]) -> Size
    ensures { result ≡ fields.size_of words.now }
{
    let word = words[0];
    match word >> 6 & 3 {
        0 => Size::Byte,
        1 => Size::Word,
        _ => Size::Long,
    }
}

/// Word or long by bit 6, of EXT, MOVEM and MOVEP.
#[tactic(auto, unfolding(crate::specs::Fields::word_or_long))]
pub fn size_by_bit_6(words: &[u16; 5]) -> Size
    ensures { result ≡ fields.word_or_long 64 words.now }
{
    let word = words[0];
    if word >> 6 & 1 == 1 {
        Size::Long
    } else {
        Size::Word
    }
}

/// Word or long by bit 8, of operations on an address register.
#[tactic(auto, unfolding(crate::specs::Fields::word_or_long))]
pub fn size_by_bit_8(words: &[u16; 5]) -> Size
    ensures { result ≡ fields.word_or_long 256 words.now }
{
    let word = words[0];
    if word >> 8 & 1 == 1 {
        Size::Long
    } else {
        Size::Word
    }
}

/// How many words a number of the size takes.
pub fn words_of_number(size: Size) -> u8
    ensures value { result ≡ fields.words_of_number size }
    ensures most { result ≤ 2 }
{
    match size {
        Size::Byte | Size::Word => 1,
        Size::Long => 2,
    }
}

/// The number of the size that begins at this word.
#[tactic(auto, unfolding(crate::specs::Fields::number_at))]
pub fn number(words: &[u16; 5], size: Size, at: u8) -> u32
    requires { at < 4 }
    ensures value { result ≡ fields.number_at size at words.now }
    ensures below { result < modulus_of size }
{
    let first = words[usize::from(at)];
    let second = words[usize::from(at) + 1];
    match size {
        Size::Byte => u32::from(first & 0xff),
        Size::Word => u32::from(first),
        Size::Long => u32::from(first) << 16 | u32::from(second),
    }
}

/// The second word.
#[tactic(auto, unfolding(crate::specs::Fields::number_at))]
pub fn second_word(words: &[u16; 5]) -> u16
    ensures { result ≡ fields.number_at Size.Word 1 words.now }
{
    words[1]
}

/// The low byte of the second word.
#[tactic(auto, unfolding(crate::specs::Fields::number_at))]
pub fn second_byte(words: &[u16; 5]) -> u8
    ensures { result ≡ fields.number_at Size.Byte 1 words.now }
{
    let word = words[1];
    (word & 0xff) as u8
}

/// The number 1 to 8 in bits 11 to 9.
#[tactic(auto, unfolding(crate::specs::Fields::quick))]
pub fn quick_number(words: &[u16; 5]) -> u8
    ensures value { result ≡ fields.quick words.now }
    ensures some { 0 < result }
    ensures most { result ≤ 8 }
{
    let number = high_register(words);
    if number == 0 { 8 } else { number }
}

/// The condition in bits 11 to 8.
#[tactic(auto, unfolding(crate::specs::Fields::condition_of))]
pub fn condition_of(words: &[u16; 5]) -> Condition
    ensures { result ≡ fields.condition_of words.now }
{
    let word = words[0];
    match word >> 8 & 15 {
        0 => Condition::True,
        1 => Condition::False,
        2 => Condition::High,
        3 => Condition::LowOrSame,
        4 => Condition::CarryClear,
        5 => Condition::CarrySet,
        6 => Condition::NotEqual,
        7 => Condition::Equal,
        8 => Condition::OverflowClear,
        9 => Condition::OverflowSet,
        10 => Condition::Plus,
        11 => Condition::Minus,
        12 => Condition::GreaterOrEqual,
        13 => Condition::LessThan,
        14 => Condition::GreaterThan,
        _ => Condition::LessOrEqual,
    }
}

/// The displacement of a branch.
#[tactic(auto, unfolding(crate::specs::Fields::displacement_of))]
pub fn displacement_of(words: &[u16; 5]) -> Displacement
    ensures { result ≡ fields.displacement_of words.now }
{
    match low_byte(words) {
        0 => Displacement::Word(words[1]),
        byte => Displacement::Byte(byte),
    }
}

/// How many extension words a branch has.
pub fn words_of_displacement(displacement: Displacement) -> u8
    ensures value { result ≡ fields.words_of_displacement displacement }
    ensures most { result ≤ 1 }
{
    match displacement {
        Displacement::Byte(_) => 0,
        Displacement::Word(_) => 1,
    }
}

/// A shift by its kind, 0 to 3, and whether it goes to the left.
#[tactic(auto, unfolding(crate::specs::Fields::shift_of))]
pub fn shift(kind: u16, left: bool) -> Task
    requires { kind < 4 }
    ensures { result ≡ fields.shift_of kind left }
{
    match (kind, left) {
        (0, true) => Task::Asl,
        (0, false) => Task::Asr,
        (1, true) => Task::Lsl,
        (1, false) => Task::Lsr,
        (2, true) => Task::Roxl,
        (2, false) => Task::Roxr,
        (_, true) => Task::Rol,
        (_, false) => Task::Ror,
    }
}

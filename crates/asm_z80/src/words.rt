ghost use Rattle.std.specs.Prelude.{◌≡◌};
ghost use Rattle.asm_z80.specs.Words as meaning;

use z80_decode::{Bit, Condition, Index, InterruptMode, Pair, Place8, Special};

fn letter8(c: u8) -> Place8
    ensures { result ≡ meaning.letter8 c }
{
    match c {
        98 => Place8::B,
        99 => Place8::C,
        100 => Place8::D,
        101 => Place8::E,
        104 => Place8::H,
        108 => Place8::L,
        _ => Place8::A,
    }
}

fn half8(index: u8, half: u8) -> Place8
    ensures { result ≡ meaning.half8 index half }
{
    match (index, half) {
        (120, 104) => Place8::Ixh,
        (120, _) => Place8::Ixl,
        (_, 104) => Place8::Iyh,
        (_, _) => Place8::Iyl,
    }
}

/// A register of 8 bits.
#[tactic(auto, unfolding(crate::specs::Words::register8))]
pub(crate) fn register8(word: &[u8]) -> Place8
    ensures { result ≡ meaning.register8 word.now }
{
    match word {
        [c] => letter8(*c),
        [_, index, half, ..] => half8(*index, *half),
        _ => Place8::A,
    }
}

/// The place that a register of 16 bits points to.
#[tactic(auto, unfolding(crate::specs::Words::at_pair))]
pub(crate) fn at_pair(word: &[u8]) -> Place8
    ensures { result ≡ meaning.at_pair word.now }
{
    match word {
        [98, ..] => Place8::AtBc,
        [100, ..] => Place8::AtDe,
        _ => Place8::AtHl,
    }
}

/// IX or IY with a displacement.
#[tactic(auto, unfolding(crate::specs::Words::displaced))]
pub(crate) fn displaced(word: &[u8], by: u8) -> Place8
    ensures { result ≡ meaning.displaced word.now by }
{
    match word {
        [_, index, ..] if *index != 120 => Place8::AtIy(by),
        _ => Place8::AtIx(by),
    }
}

fn letters16(c: u8, index: u8) -> Pair
    ensures { result ≡ meaning.letters16 c index }
{
    match (c, index) {
        (98, _) => Pair::Bc,
        (100, _) => Pair::De,
        (115, _) => Pair::Sp,
        (97, _) => Pair::Af,
        (105, 120) => Pair::Ix,
        (105, _) => Pair::Iy,
        (_, _) => Pair::Hl,
    }
}

/// A register of 16 bits.
#[tactic(auto, unfolding(crate::specs::Words::pair_of))]
pub(crate) fn pair_of(word: &[u8]) -> Pair
    ensures { result ≡ meaning.pair_of word.now }
{
    match word {
        [c, index, ..] => letters16(*c, *index),
        _ => Pair::Hl,
    }
}

/// Whether a word is as long as the name of a register of 16 bits.
#[tactic(auto, unfolding(crate::specs::Words::is_pair))]
pub(crate) fn is_pair(word: &[u8]) -> bool
    ensures { result ≡ meaning.is_pair word.now }
{
    match word {
        [_, _] => true,
        _ => false,
    }
}

fn letters_index(c: u8, index: u8) -> Index
    ensures { result ≡ meaning.letters_index c index }
{
    match (c, index) {
        (105, 120) => Index::Ix,
        (105, _) => Index::Iy,
        (_, _) => Index::Hl,
    }
}

/// HL, or what a prefix makes of it.
#[tactic(auto, unfolding(crate::specs::Words::index_of))]
pub(crate) fn index_of(word: &[u8]) -> Index
    ensures { result ≡ meaning.index_of word.now }
{
    match word {
        [c, index, ..] => letters_index(*c, *index),
        _ => Index::Hl,
    }
}

/// Whether a register of 16 bits is HL, IX or IY.
#[tactic(auto, unfolding(crate::specs::Words::is_index))]
pub(crate) fn is_index(word: &[u8]) -> bool
    ensures { result ≡ meaning.is_index word.now }
{
    match word {
        [] => false,
        [c, ..] => *c == 104 || *c == 105,
    }
}

fn letter_condition(c: u8) -> Condition
    ensures { result ≡ meaning.letter_condition c }
{
    match c {
        122 => Condition::Zero,
        99 => Condition::Carry,
        112 => Condition::Positive,
        _ => Condition::Negative,
    }
}

fn letters_condition(c: u8, d: u8) -> Condition
    ensures { result ≡ meaning.letters_condition c d }
{
    match (c, d) {
        (110, 122) => Condition::NonZero,
        (110, _) => Condition::NonCarry,
        (_, 111) => Condition::ParityOdd,
        (_, _) => Condition::ParityEven,
    }
}

/// A condition.
#[tactic(auto, unfolding(crate::specs::Words::condition_of))]
pub(crate) fn condition_of(word: &[u8]) -> Condition
    ensures { result ≡ meaning.condition_of word.now }
{
    match word {
        [] => Condition::Negative,
        [c] => letter_condition(*c),
        [c, d, ..] => letters_condition(*c, *d),
    }
}

fn digit_bit(c: u8) -> Bit
    ensures { result ≡ meaning.digit_bit c }
{
    match c {
        48 => Bit::Bit0,
        49 => Bit::Bit1,
        50 => Bit::Bit2,
        51 => Bit::Bit3,
        52 => Bit::Bit4,
        53 => Bit::Bit5,
        54 => Bit::Bit6,
        _ => Bit::Bit7,
    }
}

/// The number of a bit.
#[tactic(auto, unfolding(crate::specs::Words::bit_of))]
pub(crate) fn bit_of(word: &[u8]) -> Bit
    ensures { result ≡ meaning.bit_of word.now }
{
    match word {
        [] => Bit::Bit7,
        [c, ..] => digit_bit(*c),
    }
}

/// The number of an interrupt mode.
#[tactic(auto, unfolding(crate::specs::Words::mode_of))]
pub(crate) fn mode_of(word: &[u8]) -> InterruptMode
    ensures { result ≡ meaning.mode_of word.now }
{
    match word {
        [48, ..] => InterruptMode::Mode0,
        [49, ..] => InterruptMode::Mode1,
        _ => InterruptMode::Mode2,
    }
}

/// The interrupt vector register or the refresh register.
#[tactic(auto, unfolding(crate::specs::Words::special_of))]
pub(crate) fn special_of(word: &[u8]) -> Special
    ensures { result ≡ meaning.special_of word.now }
{
    match word {
        [105, ..] => Special::Interrupt,
        _ => Special::Refresh,
    }
}

/// Whether a word is the name of one of these.
#[tactic(auto, unfolding(crate::specs::Words::is_special))]
pub(crate) fn is_special(word: &[u8]) -> bool
    ensures { result ≡ meaning.is_special word.now }
{
    match word {
        [c] => *c == 105 || *c == 114,
        _ => false,
    }
}

/// Whether a register of 16 bits is AF.
#[tactic(auto, unfolding(crate::specs::Words::is_af))]
pub(crate) fn is_af(word: &[u8]) -> bool
    ensures { result ≡ meaning.is_af word.now }
{
    match word {
        [] => false,
        [c, ..] => *c == 97,
    }
}

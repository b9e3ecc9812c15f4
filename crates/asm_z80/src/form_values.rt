//! What the form of an operand is worth in an instruction: a register, a place of 8 bits, a condition, a number.

ghost use Rattle.std.specs.Prelude.{◌≡◌};
ghost use Rattle.asm_z80.specs.Building as building;
ghost use Rattle.asm_z80.specs.Forms.{seen};
ghost use Rattle.asm_z80.specs.Words as meaning;

use crate::form::Form80;
use crate::words::{
    at_pair, condition_of, displaced, index_of, is_pair, is_special, pair_of, register8,
};
use z80_decode::{Condition, Index, Pair, Place8};

/// The word of an operand; the empty one where it has none.
pub(crate) fn word_in<'a>(form: Form80<'a>) -> &'a [u8]
    ensures { result.now ≡ building.word_in (seen form.entry) }
{
    match form {
        Form80::Worded(word) | Form80::AtWord(word) => word,
        _ => &[],
    }
}

/// The number of an operand; 0 where it has none.
pub(crate) fn number(form: Form80<'_>) -> u32
    ensures { result ≡ building.number (seen form.entry) }
{
    match form {
        Form80::Bare(n) | Form80::AtNumber(n) => n,
        _ => 0,
    }
}

pub(crate) fn is_nothing(form: Form80<'_>) -> bool
    ensures { result ≡ building.is_nothing (seen form.entry) }
{
    match form {
        Form80::Nothing => true,
        _ => false,
    }
}

pub(crate) fn is_at_number(form: Form80<'_>) -> bool
    ensures { result ≡ building.is_at_number (seen form.entry) }
{
    match form {
        Form80::AtNumber(_) => true,
        _ => false,
    }
}

pub(crate) fn is_at_word(form: Form80<'_>) -> bool
    ensures { result ≡ building.is_at_word (seen form.entry) }
{
    match form {
        Form80::AtWord(_) => true,
        _ => false,
    }
}

/// Whether an operand is a register of 16 bits that is no address.
pub(crate) fn names_pair(form: Form80<'_>) -> bool
    ensures { result ≡ building.names_pair (seen form.entry) }
{
    match form {
        Form80::Worded(word) => is_pair(word),
        _ => false,
    }
}

/// Whether an operand is I or R.
pub(crate) fn names_special(form: Form80<'_>) -> bool
    ensures { result ≡ building.names_special (seen form.entry) }
{
    match form {
        Form80::Worded(word) => is_special(word),
        _ => false,
    }
}

/// The low 8 bits of a number.
pub(crate) fn byte(form: Form80<'_>) -> u8
    ensures { result ≡ building.byte (seen form.entry) }
{
    (number(form) % 256) as u8
}

/// The low 16 bits of a number.
pub(crate) fn word(form: Form80<'_>) -> u16
    ensures { result ≡ building.word (seen form.entry) }
{
    (number(form) % 65536) as u16
}

/// An operand of 8 bits.
pub(crate) fn place(form: Form80<'_>) -> Place8
    ensures { result ≡ building.place (seen form.entry) }
{
    match form {
        Form80::Nothing => Place8::A,
        Form80::Worded(word) => register8(word),
        Form80::AtWord(word) => at_pair(word),
        Form80::Displaced(word, n) => displaced(word, (n % 256) as u8),
        Form80::Bare(n) => Place8::Number((n % 256) as u8),
        Form80::AtNumber(n) => Place8::At((n % 65536) as u16),
    }
}

pub(crate) fn pair(form: Form80<'_>) -> Pair
    ensures { result ≡ building.pair (seen form.entry) }
{
    pair_of(word_in(form))
}

pub(crate) fn index(form: Form80<'_>) -> Index
    ensures { result ≡ building.index (seen form.entry) }
{
    index_of(word_in(form))
}

pub(crate) fn condition(form: Form80<'_>) -> Condition
    ensures { result ≡ meaning.condition_of (building.word_in (seen form.entry)) }
{
    condition_of(word_in(form))
}

/// The distance of a relative jump of two bytes that is at an address, modulo 256.
#[tactic(auto, unfolding(crate::specs::Building::distance))]
pub(crate) fn distance(at: u16, to: u32) -> u8
    ensures { result ≡ building.distance at to }
{
    ((u64::from(to) + 131_070 - u64::from(at)) % 256) as u8
}

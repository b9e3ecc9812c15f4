ghost use Rattle.std.specs.Prelude.{◌≡◌, ◌<◌, ◌≤◌, ◌/◌, ◌%◌, ◌+◌, ◌*◌, slice_index};
ghost use Rattle.md_word.specs.Fields.{bit_of};
ghost use Rattle.md_word.specs.Modes.{IsMode};
ghost use Rattle.m68k_decode.specs.Fields as fields;
ghost use Rattle.m68k_decode.specs.Addressing.{low_mode_number, mode_number};
ghost use Rattle.m68k_decode.specs.Operands.{IsOperand, number_of};

use crate::fields::{number, words_of_number};
use md_word::{Mode, Size};

/// An addressing mode with its extension words read.
///
/// Source: M68000 Programmer's Reference Manual, section 2.2.
#[derive(Clone, Copy)]
pub struct Operand {
    pub mode: Mode,
    /// How many words of the instruction have been read.
    pub end: u8,
}

/// The parts of a brief extension word: the index register, 0 to 15, whether all of it counts, and
/// the displacement. Bits 10 to 8 are not looked at.
fn brief(word: u16) -> (u8, bool, u8)
    ensures index { result.0 ≡ word / 4096 }
    ensures long { result.1 ≡ bit_of word 2048 }
    ensures displacement { result.2 ≡ word % 256 }
    ensures below { result.0 < 16 }
{
    ((word >> 12) as u8, word >> 11 & 1 == 1, (word & 0xff) as u8)
}

/// A mode and its register, with the extension words from this word on.
#[inline(always)]
#[tactic(auto, unfolding(crate::specs::Fields::mode_of))]
fn mode_of(words: &[u16; 5], mode: u8, register: u8, size: Size, at: u8) -> Mode
    requires at_in_range { at < 4 }
    requires mode_in_range { mode < 8 }
    requires register_in_range { register < 8 }
    ensures value { result ≡ fields.mode_of mode register size at words.now }
    ensures operand { IsOperand size result }
    ensures number { mode_number mode register < 12 → number_of result ≡ mode_number mode register }
{
    match (mode, register) {
        (0, _) => Mode::Data(register),
        (1, _) => Mode::Address(register),
        (2, _) => Mode::Indirect(register),
        (3, _) => Mode::PostInc(register),
        (4, _) => Mode::PreDec(register),
        (5, _) => Mode::Displaced(register, words[usize::from(at)]),
        (6, _) => {
            let (index, long, displacement) = brief(words[usize::from(at)]);
            Mode::Indexed(register, index, long, displacement)
        }
        (_, 0) => Mode::AbsShort(words[usize::from(at)]),
        (_, 1) => Mode::AbsLong(number(words, Size::Long, at)),
        (_, 2) => Mode::PcDisplaced(words[usize::from(at)]),
        (_, 3) => {
            let (index, long, displacement) = brief(words[usize::from(at)]);
            Mode::PcIndexed(index, long, displacement)
        }
        _ => Mode::Immediate(number(words, size, at)),
    }
}

/// How many extension words a mode has.
#[inline(always)]
fn words_of_mode(size: Size, mode: Mode) -> u8
    ensures value { result ≡ fields.words_of_mode size mode }
    ensures most { result ≤ 2 }
{
    match mode {
        Mode::Data(_) | Mode::Address(_) => 0,
        Mode::Indirect(_) | Mode::PostInc(_) | Mode::PreDec(_) => 0,
        Mode::Displaced(_, _) | Mode::Indexed(_, _, _, _) => 1,
        Mode::PcDisplaced(_) | Mode::PcIndexed(_, _, _) => 1,
        Mode::AbsShort(_) => 1,
        Mode::AbsLong(_) => 2,
        Mode::Immediate(_) => words_of_number(size),
    }
}

/// The operand in the low six bits, with the extension words from this word on.
#[inline(always)]
#[tactic(auto, unfolding(crate::specs::Fields::low_mode))]
pub fn low_operand(words: &[u16; 5], size: Size, at: u8) -> Operand
    requires { at < 4 }
    ensures mode { result.mode ≡ fields.low_mode size at words.now }
    ensures number { low_mode_number (slice_index words.now 0) < 12 → number_of result.mode ≡ low_mode_number (slice_index words.now 0) }
    ensures end { result.end ≡ at + fields.words_of_mode size result.mode }
    ensures short { result.end ≤ at + 2 }
    ensures operand { IsOperand size result.mode }
{
    let word = words[0];
    let mode = mode_of(words, (word >> 3 & 7) as u8, (word & 7) as u8, size, at);
    Operand {
        mode,
        end: at + words_of_mode(size, mode),
    }
}

/// The target of MOVE, whose register precedes its mode, with the extension words from this
/// word on.
#[inline(always)]
#[tactic(auto, unfolding(crate::specs::Fields::high_mode))]
pub fn high_operand(words: &[u16; 5], size: Size, at: u8) -> Operand
    requires { at < 4 }
    ensures mode { result.mode ≡ fields.high_mode size at words.now }
    ensures end { result.end ≡ at + fields.words_of_mode size result.mode }
    ensures short { result.end ≤ at + 2 }
    ensures operand { IsOperand size result.mode }
{
    let word = words[0];
    let mode = mode_of(
        words,
        (word >> 6 & 7) as u8,
        (word >> 9 & 7) as u8,
        size,
        at,
    );
    Operand {
        mode,
        end: at + words_of_mode(size, mode),
    }
}

/// The operand Dn, or −(An) where bit 3 is set, of this register.
#[tactic(auto, unfolding(crate::specs::Fields::paired))]
pub fn paired(words: &[u16; 5], register: u8) -> Mode
    requires { register < 8 }
    ensures value { result ≡ fields.paired words.now register }
    ensures registers { IsMode result }
    ensures number { number_of result ≡ 4 * (slice_index words.now 0 / 8 % 2) }
{
    let word = words[0];
    if word >> 3 & 1 == 1 {
        Mode::PreDec(register)
    } else {
        Mode::Data(register)
    }
}

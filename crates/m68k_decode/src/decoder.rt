ghost use Rattle.std.specs.Prelude.{◌≡◌, ◌≤◌, length};
ghost use Rattle.m68k_decode.specs.Fields.{opcode};
ghost use Rattle.m68k_decode.specs.Instructions as instructions;
ghost use Rattle.m68k_decode.specs.Lines.{rows_of};
ghost use Rattle.m68k_decode.specs.Nested.{nested};
ghost use Rattle.m68k_decode.specs.Ops.{IsInstruction};

use crate::arithmetic::sums;
use crate::branches::{group_5, group_6, group_7};
use crate::group_0::group_0;
use crate::group_4::group_4;
use crate::group_8::group_8;
use crate::group_b::group_b;
use crate::group_c::group_c;
use crate::group_e::group_e;
use crate::illegal::unmatched;
use crate::moves::{group_1, group_2_or_3};
use crate::{Decoded, Op};
use md_word::{Size, Task};

/// The instruction of these words, by the first digit.
#[tactic(auto, unfolding(crate::specs::Nested::nested))]
fn by_digit(words: &[u16; 5], into: &mut Decoded)
    ensures value { into.new ≡ instructions.picked (nested (opcode words.now)) words.now }
    ensures instruction { IsInstruction into.new }
{
    let word = words[0];
    match word >> 12 {
        0 => group_0(words, into),
        1 => group_1(words, into),
        2 => group_2_or_3(Size::Long, words, into),
        3 => group_2_or_3(Size::Word, words, into),
        4 => group_4(words, into),
        5 => group_5(words, into),
        6 => group_6(words, into),
        7 => group_7(words, into),
        8 => group_8(words, into),
        9 => sums(Task::Sub, Task::Subx, words, into),
        11 => group_b(words, into),
        12 => group_c(words, into),
        13 => sums(Task::Add, Task::Addx, words, into),
        14 => group_e(words, into),
        _ => unmatched(words, into),
    }
}

/// Decodes the instruction that these words begin with, as [`decode`] does, in place.
#[tactic(auto, using(crate::proofs::Table::decoded_is_picked, crate::proofs::Table::one_row))]
pub fn decode_into(words: &[u16; 5], into: &mut Decoded)
    ensures value { into.new ≡ instructions.instruction_of words.now }
    ensures at_most_one_row { length (rows_of (opcode words.now)) ≤ 1 }
    ensures instruction { IsInstruction into.new }
{
    let _first = words[0];
    by_digit(words, into);
}

/// The instruction that these words begin with: the first word and up to four extension words.
///
/// It is that of the row of the table of instructions that the first word matches, and no word
/// matches two. A word that matches none is line A or line F by its first digit, else illegal.
pub fn decode(words: &[u16; 5]) -> Decoded
    ensures value { result ≡ instructions.instruction_of words.now }
    ensures at_most_one_row { length (rows_of (opcode words.now)) ≤ 1 }
    ensures instruction { IsInstruction result }
{
    let mut found = Decoded::of_words(1, Op::Nop);
    decode_into(words, &mut found);
    found
}

ghost use Rattle.std.specs.Prelude.{◌≡◌, slice_index};
ghost use Rattle.m68k_decode.specs.Instructions as instructions;
ghost use Rattle.m68k_decode.specs.Nested as nested;
ghost use Rattle.m68k_decode.specs.Rows as rows;
ghost use Rattle.m68k_decode.specs.Ops.{IsInstruction};

use crate::addressing::{is_any, is_data, is_data_alterable_target};
use crate::fields::high_register;
use crate::illegal::unmatched;
use crate::operand::{high_operand, low_operand};
use crate::{Decoded, Op};
use md_word::Size;

#[inline(always)]
#[tactic(auto, unfolding(crate::specs::Instructions::made))]
fn move_to(size: Size, words: &[u16; 5], into: &mut Decoded)
    ensures value { into.new ≡ instructions.made (rows.Move size) words.now }
    ensures instruction { IsInstruction into.new }
{
    let source = low_operand(words, size, 1);
    let target = high_operand(words, size, source.end);
    *into = Decoded::of_words(target.end, Op::Move(size, source.mode, target.mode))
}

#[inline(always)]
#[tactic(auto, unfolding(crate::specs::Instructions::made))]
fn movea(size: Size, words: &[u16; 5], into: &mut Decoded)
    ensures value { into.new ≡ instructions.made (rows.Movea size) words.now }
    ensures instruction { IsInstruction into.new }
{
    let operand = low_operand(words, size, 1);
    *into = Decoded::of_words(
        operand.end,
        Op::Movea(size, high_register(words), operand.mode),
    )
}

/// MOVE.B
#[inline(always)]
#[tactic(auto, unfolding(crate::specs::Nested::group_1))]
pub fn group_1(words: &[u16; 5], into: &mut Decoded)
    ensures value { into.new ≡ instructions.picked (nested.group_1 (slice_index words.now 0)) words.now }
    ensures instruction { IsInstruction into.new }
{
    let word = words[0];
    if is_data(word) && is_data_alterable_target(word) {
        move_to(Size::Byte, words, into)
    } else {
        unmatched(words, into)
    }
}

/// MOVE.L, MOVE.W, and MOVEA in the place of An.
#[inline(always)]
#[tactic(auto, unfolding(crate::specs::Nested::group_2_or_3))]
pub fn group_2_or_3(size: Size, words: &[u16; 5], into: &mut Decoded)
    ensures value { into.new ≡ instructions.picked (nested.group_2_or_3 size (slice_index words.now 0)) words.now }
    ensures instruction { IsInstruction into.new }
{
    let word = words[0];
    match word >> 6 & 7 {
        1 if is_any(word) => movea(size, words, into),
        _ if is_any(word) && is_data_alterable_target(word) => move_to(size, words, into),
        _ => unmatched(words, into),
    }
}

ghost use Rattle.std.specs.Prelude.{◌≡◌, slice_index};
ghost use Rattle.m68k_decode.specs.Instructions as instructions;
ghost use Rattle.m68k_decode.specs.Nested as nested;
ghost use Rattle.m68k_decode.specs.Rows as rows;
ghost use Rattle.m68k_decode.specs.Ops.{IsInstruction};

use crate::addressing::{is_data, is_memory_alterable};
use crate::arithmetic::{decimal, to_memory, to_register};
use crate::fields::{high_register, low_register};
use crate::illegal::unmatched;
use crate::operand::low_operand;
use crate::{Decoded, Op};
use md_word::{Size, Task};

#[tactic(auto, unfolding(crate::specs::Instructions::made))]
fn mulu(words: &[u16; 5], into: &mut Decoded)
    ensures value { into.new ≡ instructions.made rows.Mulu words.now }
    ensures instruction { IsInstruction into.new }
{
    let operand = low_operand(words, Size::Word, 1);
    *into = Decoded::of_words(operand.end, Op::Mulu(high_register(words), operand.mode))
}

#[tactic(auto, unfolding(crate::specs::Instructions::made))]
fn muls(words: &[u16; 5], into: &mut Decoded)
    ensures value { into.new ≡ instructions.made rows.Muls words.now }
    ensures instruction { IsInstruction into.new }
{
    let operand = low_operand(words, Size::Word, 1);
    *into = Decoded::of_words(operand.end, Op::Muls(high_register(words), operand.mode))
}

#[tactic(auto, unfolding(crate::specs::Instructions::made))]
fn exg_data(words: &[u16; 5], into: &mut Decoded)
    ensures value { into.new ≡ instructions.made rows.ExgData words.now }
    ensures instruction { IsInstruction into.new }
{
    *into = Decoded::of_words(1, Op::Exg(high_register(words), low_register(words)))
}

#[tactic(auto, unfolding(crate::specs::Instructions::made))]
fn exg_address(words: &[u16; 5], into: &mut Decoded)
    ensures value { into.new ≡ instructions.made rows.ExgAddress words.now }
    ensures instruction { IsInstruction into.new }
{
    *into = Decoded::of_words(
        1,
        Op::Exg(8 + high_register(words), 8 + low_register(words)),
    )
}

#[tactic(auto, unfolding(crate::specs::Instructions::made))]
fn exg_mixed(words: &[u16; 5], into: &mut Decoded)
    ensures value { into.new ≡ instructions.made rows.ExgMixed words.now }
    ensures instruction { IsInstruction into.new }
{
    *into = Decoded::of_words(1, Op::Exg(high_register(words), 8 + low_register(words)))
}

/// ABCD, EXG, and AND to memory.
#[tactic(auto, unfolding(crate::specs::Nested::exchanges))]
fn exchanges(words: &[u16; 5], into: &mut Decoded)
    ensures value { into.new ≡ instructions.picked (nested.exchanges (slice_index words.now 0)) words.now }
    ensures instruction { IsInstruction into.new }
{
    let word = words[0];
    match (word >> 6 & 3, word >> 3 & 7) {
        (0, 0 | 1) => decimal(Task::Abcd, words, into),
        (1, 0) => exg_data(words, into),
        (1, 1) => exg_address(words, into),
        (2, 1) => exg_mixed(words, into),
        _ if is_memory_alterable(word) => to_memory(Task::And, words, into),
        _ => unmatched(words, into),
    }
}

/// MULU, MULS, ABCD, EXG and AND.
#[tactic(auto, unfolding(crate::specs::Nested::group_c))]
pub fn group_c(words: &[u16; 5], into: &mut Decoded)
    ensures value { into.new ≡ instructions.picked (nested.group_c (slice_index words.now 0)) words.now }
    ensures instruction { IsInstruction into.new }
{
    let word = words[0];
    match (word >> 6 & 3, word >> 8 & 1) {
        (3, 0) if is_data(word) => mulu(words, into),
        (3, 1) if is_data(word) => muls(words, into),
        (3, _) => unmatched(words, into),
        (_, 0) if is_data(word) => to_register(Task::And, words, into),
        (_, 1) => exchanges(words, into),
        _ => unmatched(words, into),
    }
}

ghost use Rattle.std.specs.Prelude.{◌≡◌, slice_index};
ghost use Rattle.m68k_decode.specs.Instructions as instructions;
ghost use Rattle.m68k_decode.specs.Nested as nested;
ghost use Rattle.m68k_decode.specs.Rows as rows;
ghost use Rattle.m68k_decode.specs.Ops.{IsInstruction};

use crate::addressing::{is_data, is_data_alterable, is_data_but_immediate, is_sized};
use crate::fields::{
    high_register, low_register, number, second_byte, second_word, size, size_by_bit_6,
    words_of_number,
};
use crate::illegal::unmatched;
use crate::operand::low_operand;
use crate::{Decoded, Op};
use md_word::{Size, Task};

#[tactic(auto, unfolding(crate::specs::Instructions::made))]
fn immediate(task: Task, words: &[u16; 5], into: &mut Decoded)
    ensures value { into.new ≡ instructions.made (rows.Immediate task) words.now }
    ensures instruction { IsInstruction into.new }
{
    let size = size(words);
    let operand = low_operand(words, size, 1 + words_of_number(size));
    *into = Decoded::of_words(
        operand.end,
        Op::Immediate(task, size, number(words, size, 1), operand.mode),
    )
}

#[tactic(auto, unfolding(crate::specs::Instructions::made))]
fn compare_immediate(words: &[u16; 5], into: &mut Decoded)
    ensures value { into.new ≡ instructions.made rows.CompareImmediate words.now }
    ensures instruction { IsInstruction into.new }
{
    let size = size(words);
    let operand = low_operand(words, size, 1 + words_of_number(size));
    *into = Decoded::of_words(
        operand.end,
        Op::CompareImmediate(size, number(words, size, 1), operand.mode),
    )
}

#[tactic(auto, unfolding(crate::specs::Instructions::made))]
fn immediate_to_ccr(task: Task, words: &[u16; 5], into: &mut Decoded)
    ensures value { into.new ≡ instructions.made (rows.ImmediateToCcr task) words.now }
    ensures instruction { IsInstruction into.new }
{
    *into = Decoded::of_words(2, Op::ImmediateToCcr(task, second_byte(words)))
}

#[tactic(auto, unfolding(crate::specs::Instructions::made))]
fn immediate_to_sr(task: Task, words: &[u16; 5], into: &mut Decoded)
    ensures value { into.new ≡ instructions.made (rows.ImmediateToSr task) words.now }
    ensures instruction { IsInstruction into.new }
{
    *into = Decoded::of_words(2, Op::ImmediateToSr(task, second_word(words)))
}

#[tactic(auto, unfolding(crate::specs::Instructions::made))]
fn bit_by_register(task: Task, words: &[u16; 5], into: &mut Decoded)
    ensures value { into.new ≡ instructions.made (rows.BitByRegister task) words.now }
    ensures instruction { IsInstruction into.new }
{
    let operand = low_operand(words, Size::Byte, 1);
    *into = Decoded::of_words(
        operand.end,
        Op::BitByRegister(task, high_register(words), operand.mode),
    )
}

#[tactic(auto, unfolding(crate::specs::Instructions::made))]
fn bit_by_number(task: Task, words: &[u16; 5], into: &mut Decoded)
    ensures value { into.new ≡ instructions.made (rows.BitByNumber task) words.now }
    ensures instruction { IsInstruction into.new }
{
    let operand = low_operand(words, Size::Byte, 2);
    *into = Decoded::of_words(
        operand.end,
        Op::BitByNumber(task, second_byte(words), operand.mode),
    )
}

#[tactic(auto, unfolding(crate::specs::Instructions::made))]
fn movep_to_register(words: &[u16; 5], into: &mut Decoded)
    ensures value { into.new ≡ instructions.made rows.MovepToRegister words.now }
    ensures instruction { IsInstruction into.new }
{
    let (to, from) = (high_register(words), low_register(words));
    *into = Decoded::of_words(
        2,
        Op::MovepToRegister(size_by_bit_6(words), to, from, second_word(words)),
    )
}

#[tactic(auto, unfolding(crate::specs::Instructions::made))]
fn movep_to_memory(words: &[u16; 5], into: &mut Decoded)
    ensures value { into.new ≡ instructions.made rows.MovepToMemory words.now }
    ensures instruction { IsInstruction into.new }
{
    let (from, to) = (high_register(words), low_register(words));
    *into = Decoded::of_words(
        2,
        Op::MovepToMemory(size_by_bit_6(words), from, to, second_word(words)),
    )
}

/// Bits named by a data register, and MOVEP in the place of An.
#[tactic(auto, unfolding(crate::specs::Nested::by_register))]
fn by_register(words: &[u16; 5], into: &mut Decoded)
    ensures value { into.new ≡ instructions.picked (nested.by_register (slice_index words.now 0)) words.now }
    ensures instruction { IsInstruction into.new }
{
    let word = words[0];
    match (word >> 6 & 3, word >> 3 & 7) {
        (0 | 1, 1) => movep_to_register(words, into),
        (_, 1) => movep_to_memory(words, into),
        (0, _) if is_data(word) => bit_by_register(Task::Btst, words, into),
        (1, _) if is_data_alterable(word) => bit_by_register(Task::Bchg, words, into),
        (2, _) if is_data_alterable(word) => bit_by_register(Task::Bclr, words, into),
        (3, _) if is_data_alterable(word) => bit_by_register(Task::Bset, words, into),
        _ => unmatched(words, into),
    }
}

/// Bits named by a number.
#[tactic(auto, unfolding(crate::specs::Nested::by_number))]
fn by_number(words: &[u16; 5], into: &mut Decoded)
    ensures value { into.new ≡ instructions.picked (nested.by_number (slice_index words.now 0)) words.now }
    ensures instruction { IsInstruction into.new }
{
    let word = words[0];
    match word >> 6 & 3 {
        0 if is_data_but_immediate(word) => bit_by_number(Task::Btst, words, into),
        1 if is_data_alterable(word) => bit_by_number(Task::Bchg, words, into),
        2 if is_data_alterable(word) => bit_by_number(Task::Bclr, words, into),
        3 if is_data_alterable(word) => bit_by_number(Task::Bset, words, into),
        _ => unmatched(words, into),
    }
}

/// Numbers to CCR and SR.
#[tactic(auto, unfolding(crate::specs::Nested::to_status))]
fn to_status(words: &[u16; 5], into: &mut Decoded)
    ensures value { into.new ≡ instructions.picked (nested.to_status (slice_index words.now 0)) words.now }
    ensures instruction { IsInstruction into.new }
{
    let word = words[0];
    match (word >> 9 & 7, word >> 6 & 3) {
        (0, 0) => immediate_to_ccr(Task::Or, words, into),
        (0, 1) => immediate_to_sr(Task::Or, words, into),
        (1, 0) => immediate_to_ccr(Task::And, words, into),
        (1, 1) => immediate_to_sr(Task::And, words, into),
        (5, 0) => immediate_to_ccr(Task::Eor, words, into),
        (5, 1) => immediate_to_sr(Task::Eor, words, into),
        _ => unmatched(words, into),
    }
}

/// Numbers to data alterable places.
#[tactic(auto, unfolding(crate::specs::Nested::immediates))]
fn immediates(words: &[u16; 5], into: &mut Decoded)
    ensures value { into.new ≡ instructions.picked (nested.immediates (slice_index words.now 0)) words.now }
    ensures instruction { IsInstruction into.new }
{
    let word = words[0];
    if !is_sized(word) || !is_data_alterable(word) {
        return unmatched(words, into);
    }
    match word >> 9 & 7 {
        0 => immediate(Task::Or, words, into),
        1 => immediate(Task::And, words, into),
        2 => immediate(Task::Sub, words, into),
        3 => immediate(Task::Add, words, into),
        5 => immediate(Task::Eor, words, into),
        6 => compare_immediate(words, into),
        _ => unmatched(words, into),
    }
}

/// Bits, MOVEP and immediates.
#[tactic(auto, unfolding(crate::specs::Nested::group_0))]
pub fn group_0(words: &[u16; 5], into: &mut Decoded)
    ensures value { into.new ≡ instructions.picked (nested.group_0 (slice_index words.now 0)) words.now }
    ensures instruction { IsInstruction into.new }
{
    let word = words[0];
    if word >> 8 & 1 == 1 {
        by_register(words, into)
    } else if word >> 9 & 7 == 4 {
        by_number(words, into)
    } else if word & 63 == 60 {
        to_status(words, into)
    } else {
        immediates(words, into)
    }
}

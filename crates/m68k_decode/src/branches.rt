ghost use Rattle.std.specs.Prelude.{◌≡◌, slice_index};
ghost use Rattle.m68k_decode.specs.Instructions as instructions;
ghost use Rattle.m68k_decode.specs.Nested as nested;
ghost use Rattle.m68k_decode.specs.Rows as rows;
ghost use Rattle.m68k_decode.specs.Ops.{IsInstruction};

use crate::addressing::{is_alterable, is_byte_of_address, is_data_alterable};
use crate::fields::{
    condition_of, displacement_of, high_register, low_byte, low_register, quick_number,
    second_word, size, words_of_displacement,
};
use crate::illegal::unmatched;
use crate::operand::low_operand;
use crate::{Decoded, Op};
use md_word::{Size, Task};

#[tactic(auto, unfolding(crate::specs::Instructions::made))]
fn quick(task: Task, words: &[u16; 5], into: &mut Decoded)
    ensures value { into.new ≡ instructions.made (rows.Quick task) words.now }
    ensures instruction { IsInstruction into.new }
{
    let size = size(words);
    let operand = low_operand(words, size, 1);
    *into = Decoded::of_words(
        operand.end,
        Op::Quick(task, size, quick_number(words), operand.mode),
    )
}

#[tactic(auto, unfolding(crate::specs::Instructions::made))]
fn scc(words: &[u16; 5], into: &mut Decoded)
    ensures value { into.new ≡ instructions.made rows.Scc words.now }
    ensures instruction { IsInstruction into.new }
{
    let operand = low_operand(words, Size::Byte, 1);
    *into = Decoded::of_words(operand.end, Op::Scc(condition_of(words), operand.mode))
}

#[tactic(auto, unfolding(crate::specs::Instructions::made))]
fn dbcc(words: &[u16; 5], into: &mut Decoded)
    ensures value { into.new ≡ instructions.made rows.Dbcc words.now }
    ensures instruction { IsInstruction into.new }
{
    *into = Decoded::of_words(
        2,
        Op::Dbcc(condition_of(words), low_register(words), second_word(words)),
    )
}

#[tactic(auto, unfolding(crate::specs::Instructions::made))]
fn bra(words: &[u16; 5], into: &mut Decoded)
    ensures value { into.new ≡ instructions.made rows.Bra words.now }
    ensures instruction { IsInstruction into.new }
{
    let by = displacement_of(words);
    *into = Decoded::of_words(1 + words_of_displacement(by), Op::Bra(by))
}

#[tactic(auto, unfolding(crate::specs::Instructions::made))]
fn bsr(words: &[u16; 5], into: &mut Decoded)
    ensures value { into.new ≡ instructions.made rows.Bsr words.now }
    ensures instruction { IsInstruction into.new }
{
    let by = displacement_of(words);
    *into = Decoded::of_words(1 + words_of_displacement(by), Op::Bsr(by))
}

#[tactic(auto, unfolding(crate::specs::Instructions::made))]
fn bcc(words: &[u16; 5], into: &mut Decoded)
    ensures value { into.new ≡ instructions.made rows.Bcc words.now }
    ensures instruction { IsInstruction into.new }
{
    let by = displacement_of(words);
    *into = Decoded::of_words(
        1 + words_of_displacement(by),
        Op::Bcc(condition_of(words), by),
    )
}

#[tactic(auto, unfolding(crate::specs::Instructions::made))]
fn moveq(words: &[u16; 5], into: &mut Decoded)
    ensures value { into.new ≡ instructions.made rows.Moveq words.now }
    ensures instruction { IsInstruction into.new }
{
    *into = Decoded::of_words(1, Op::Moveq(high_register(words), low_byte(words)))
}

/// ADDQ, SUBQ, Scc and DBcc.
#[tactic(auto, unfolding(crate::specs::Nested::group_5))]
pub fn group_5(words: &[u16; 5], into: &mut Decoded)
    ensures value { into.new ≡ instructions.picked (nested.group_5 (slice_index words.now 0)) words.now }
    ensures instruction { IsInstruction into.new }
{
    let word = words[0];
    match (word >> 6 & 3, word >> 8 & 1) {
        (3, _) if word >> 3 & 7 == 1 => dbcc(words, into),
        (3, _) if is_data_alterable(word) => scc(words, into),
        (3, _) => unmatched(words, into),
        _ if !is_alterable(word) || is_byte_of_address(word) => unmatched(words, into),
        (_, 0) => quick(Task::Add, words, into),
        (_, _) => quick(Task::Sub, words, into),
    }
}

/// BRA, BSR and Bcc.
#[tactic(auto, unfolding(crate::specs::Nested::group_6))]
pub fn group_6(words: &[u16; 5], into: &mut Decoded)
    ensures value { into.new ≡ instructions.picked (nested.group_6 (slice_index words.now 0)) words.now }
    ensures instruction { IsInstruction into.new }
{
    let word = words[0];
    match word >> 8 & 15 {
        0 => bra(words, into),
        1 => bsr(words, into),
        _ => bcc(words, into),
    }
}

/// MOVEQ.
#[tactic(auto, unfolding(crate::specs::Nested::group_7))]
pub fn group_7(words: &[u16; 5], into: &mut Decoded)
    ensures value { into.new ≡ instructions.picked (nested.group_7 (slice_index words.now 0)) words.now }
    ensures instruction { IsInstruction into.new }
{
    let word = words[0];
    if word >> 8 & 1 == 0 {
        moveq(words, into)
    } else {
        unmatched(words, into)
    }
}

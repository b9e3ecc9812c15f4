ghost use Rattle.std.specs.Prelude.{◌≡◌, slice_index};
ghost use Rattle.m68k_decode.specs.Instructions as instructions;
ghost use Rattle.m68k_decode.specs.Nested as nested;
ghost use Rattle.m68k_decode.specs.Rows as rows;
ghost use Rattle.m68k_decode.specs.Ops.{IsInstruction};

use crate::addressing::is_memory_alterable;
use crate::fields::{high_register, low_register, quick_number, shift, size};
use crate::illegal::unmatched;
use crate::operand::low_operand;
use crate::{Decoded, Op};
use md_word::Size;

#[tactic(auto, unfolding(crate::specs::Instructions::made))]
fn shift_by_number(words: &[u16; 5], into: &mut Decoded)
    ensures value { into.new ≡ instructions.made rows.ShiftByNumber words.now }
    ensures instruction { IsInstruction into.new }
{
    let word = words[0];
    let task = shift(word >> 3 & 3, word >> 8 & 1 == 1);
    *into = Decoded::of_words(
        1,
        Op::ShiftByNumber(task, size(words), quick_number(words), low_register(words)),
    )
}

#[tactic(auto, unfolding(crate::specs::Instructions::made))]
fn shift_by_register(words: &[u16; 5], into: &mut Decoded)
    ensures value { into.new ≡ instructions.made rows.ShiftByRegister words.now }
    ensures instruction { IsInstruction into.new }
{
    let word = words[0];
    let task = shift(word >> 3 & 3, word >> 8 & 1 == 1);
    *into = Decoded::of_words(
        1,
        Op::ShiftByRegister(task, size(words), high_register(words), low_register(words)),
    )
}

#[tactic(auto, unfolding(crate::specs::Instructions::made))]
fn shift_memory(words: &[u16; 5], into: &mut Decoded)
    ensures value { into.new ≡ instructions.made rows.ShiftMemory words.now }
    ensures instruction { IsInstruction into.new }
{
    let word = words[0];
    let task = shift(word >> 9 & 3, word >> 8 & 1 == 1);
    let operand = low_operand(words, Size::Word, 1);
    *into = Decoded::of_words(operand.end, Op::ShiftMemory(task, operand.mode))
}

/// Shifts and rotates.
#[tactic(auto, unfolding(crate::specs::Nested::group_e))]
pub fn group_e(words: &[u16; 5], into: &mut Decoded)
    ensures value { into.new ≡ instructions.picked (nested.group_e (slice_index words.now 0)) words.now }
    ensures instruction { IsInstruction into.new }
{
    let word = words[0];
    match word >> 6 & 3 {
        3 if word >> 11 & 1 == 0 && is_memory_alterable(word) => shift_memory(words, into),
        3 => unmatched(words, into),
        _ if word >> 5 & 1 == 0 => shift_by_number(words, into),
        _ => shift_by_register(words, into),
    }
}

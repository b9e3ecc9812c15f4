ghost use Rattle.std.specs.Prelude.{◌≡◌, slice_index};
ghost use Rattle.m68k_decode.specs.Instructions as instructions;
ghost use Rattle.m68k_decode.specs.Nested as nested;
ghost use Rattle.m68k_decode.specs.Rows as rows;
ghost use Rattle.m68k_decode.specs.Ops.{IsInstruction};

use crate::addressing::{is_data, is_memory_alterable};
use crate::arithmetic::{decimal, to_memory, to_register};
use crate::fields::high_register;
use crate::illegal::unmatched;
use crate::operand::low_operand;
use crate::{Decoded, Op};
use md_word::{Size, Task};

#[tactic(auto, unfolding(crate::specs::Instructions::made))]
fn divu(words: &[u16; 5], into: &mut Decoded)
    ensures value { into.new ≡ instructions.made rows.Divu words.now }
    ensures instruction { IsInstruction into.new }
{
    let operand = low_operand(words, Size::Word, 1);
    *into = Decoded::of_words(operand.end, Op::Divu(high_register(words), operand.mode))
}

#[tactic(auto, unfolding(crate::specs::Instructions::made))]
fn divs(words: &[u16; 5], into: &mut Decoded)
    ensures value { into.new ≡ instructions.made rows.Divs words.now }
    ensures instruction { IsInstruction into.new }
{
    let operand = low_operand(words, Size::Word, 1);
    *into = Decoded::of_words(operand.end, Op::Divs(high_register(words), operand.mode))
}

/// DIVU, DIVS, SBCD and OR.
#[tactic(auto, unfolding(crate::specs::Nested::group_8))]
pub fn group_8(words: &[u16; 5], into: &mut Decoded)
    ensures value { into.new ≡ instructions.picked (nested.group_8 (slice_index words.now 0)) words.now }
    ensures instruction { IsInstruction into.new }
{
    let word = words[0];
    match (word >> 6 & 3, word >> 8 & 1) {
        (3, 0) if is_data(word) => divu(words, into),
        (3, 1) if is_data(word) => divs(words, into),
        (3, _) => unmatched(words, into),
        (_, 0) if is_data(word) => to_register(Task::Or, words, into),
        (0, 1) if word >> 4 & 3 == 0 => decimal(Task::Sbcd, words, into),
        (_, 1) if is_memory_alterable(word) => to_memory(Task::Or, words, into),
        _ => unmatched(words, into),
    }
}

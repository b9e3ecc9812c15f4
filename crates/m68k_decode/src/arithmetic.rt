ghost use Rattle.std.specs.Prelude.{◌≡◌, slice_index};
ghost use Rattle.m68k_decode.specs.Instructions as instructions;
ghost use Rattle.m68k_decode.specs.Nested as nested;
ghost use Rattle.m68k_decode.specs.Rows as rows;
ghost use Rattle.m68k_decode.specs.Ops.{IsInstruction};

use crate::addressing::{is_any, is_byte_of_address, is_memory_alterable};
use crate::fields::{high_register, low_register, size, size_by_bit_8};
use crate::illegal::unmatched;
use crate::operand::{low_operand, paired};
use crate::{Decoded, Op};
use md_word::Task;

/// OR, SUB, AND or ADD to a data register.
#[tactic(auto, unfolding(crate::specs::Instructions::made))]
pub fn to_register(task: Task, words: &[u16; 5], into: &mut Decoded)
    ensures value { into.new ≡ instructions.made (rows.ToRegister task) words.now }
    ensures instruction { IsInstruction into.new }
{
    let size = size(words);
    let operand = low_operand(words, size, 1);
    *into = Decoded::of_words(
        operand.end,
        Op::ToRegister(task, size, high_register(words), operand.mode),
    )
}

/// OR, SUB, AND or ADD of a data register to memory.
#[tactic(auto, unfolding(crate::specs::Instructions::made))]
pub fn to_memory(task: Task, words: &[u16; 5], into: &mut Decoded)
    ensures value { into.new ≡ instructions.made (rows.ToMemory task) words.now }
    ensures instruction { IsInstruction into.new }
{
    let size = size(words);
    let operand = low_operand(words, size, 1);
    *into = Decoded::of_words(
        operand.end,
        Op::ToMemory(task, size, high_register(words), operand.mode),
    )
}

/// SUBA or ADDA.
#[tactic(auto, unfolding(crate::specs::Instructions::made))]
pub fn to_address(task: Task, words: &[u16; 5], into: &mut Decoded)
    ensures value { into.new ≡ instructions.made (rows.ToAddress task) words.now }
    ensures instruction { IsInstruction into.new }
{
    let size = size_by_bit_8(words);
    let operand = low_operand(words, size, 1);
    *into = Decoded::of_words(
        operand.end,
        Op::ToAddress(task, size, high_register(words), operand.mode),
    )
}

/// SUBX or ADDX, of two data registers or two places in memory.
#[tactic(auto, unfolding(crate::specs::Instructions::made))]
pub fn extended(task: Task, words: &[u16; 5], into: &mut Decoded)
    ensures value { into.new ≡ instructions.made (rows.Extended task) words.now }
    ensures instruction { IsInstruction into.new }
{
    let source = paired(words, low_register(words));
    let target = paired(words, high_register(words));
    *into = Decoded::of_words(1, Op::Extended(task, size(words), source, target))
}

/// SBCD or ABCD, of two data registers or two places in memory.
#[tactic(auto, unfolding(crate::specs::Instructions::made))]
pub fn decimal(task: Task, words: &[u16; 5], into: &mut Decoded)
    ensures value { into.new ≡ instructions.made (rows.Decimal task) words.now }
    ensures instruction { IsInstruction into.new }
{
    let source = paired(words, low_register(words));
    let target = paired(words, high_register(words));
    *into = Decoded::of_words(1, Op::Decimal(task, source, target))
}

/// SUB and SUBX, or ADD and ADDX, with registers and memory.
#[tactic(auto, unfolding(crate::specs::Nested::sums))]
pub fn sums(task: Task, with_extend: Task, words: &[u16; 5], into: &mut Decoded)
    ensures value { into.new ≡ instructions.picked (nested.sums task with_extend (slice_index words.now 0)) words.now }
    ensures instruction { IsInstruction into.new }
{
    let word = words[0];
    match (word >> 6 & 3, word >> 8 & 1) {
        (3, _) if is_any(word) => to_address(task, words, into),
        (3, _) => unmatched(words, into),
        (_, 0) if is_any(word) && !is_byte_of_address(word) => to_register(task, words, into),
        (_, 1) if word >> 4 & 3 == 0 => extended(with_extend, words, into),
        (_, 1) if is_memory_alterable(word) => to_memory(task, words, into),
        _ => unmatched(words, into),
    }
}

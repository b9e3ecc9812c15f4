ghost use Rattle.std.specs.Prelude.{◌≡◌, slice_index};
ghost use Rattle.m68k_decode.specs.Instructions as instructions;
ghost use Rattle.m68k_decode.specs.Nested as nested;
ghost use Rattle.m68k_decode.specs.Rows as rows;
ghost use Rattle.m68k_decode.specs.Ops.{IsInstruction};

use crate::addressing::{is_any, is_byte_of_address, is_data_alterable};
use crate::fields::{high_register, low_register, size, size_by_bit_8};
use crate::illegal::unmatched;
use crate::operand::low_operand;
use crate::{Decoded, Op};

#[tactic(auto, unfolding(crate::specs::Instructions::made))]
fn cmp(words: &[u16; 5], into: &mut Decoded)
    ensures value { into.new ≡ instructions.made rows.Cmp words.now }
    ensures instruction { IsInstruction into.new }
{
    let size = size(words);
    let operand = low_operand(words, size, 1);
    *into = Decoded::of_words(
        operand.end,
        Op::Cmp(size, high_register(words), operand.mode),
    )
}

#[tactic(auto, unfolding(crate::specs::Instructions::made))]
fn cmpa(words: &[u16; 5], into: &mut Decoded)
    ensures value { into.new ≡ instructions.made rows.Cmpa words.now }
    ensures instruction { IsInstruction into.new }
{
    let size = size_by_bit_8(words);
    let operand = low_operand(words, size, 1);
    *into = Decoded::of_words(
        operand.end,
        Op::Cmpa(size, high_register(words), operand.mode),
    )
}

#[tactic(auto, unfolding(crate::specs::Instructions::made))]
fn eor(words: &[u16; 5], into: &mut Decoded)
    ensures value { into.new ≡ instructions.made rows.Eor words.now }
    ensures instruction { IsInstruction into.new }
{
    let size = size(words);
    let operand = low_operand(words, size, 1);
    *into = Decoded::of_words(
        operand.end,
        Op::Eor(size, high_register(words), operand.mode),
    )
}

#[tactic(auto, unfolding(crate::specs::Instructions::made))]
fn cmpm(words: &[u16; 5], into: &mut Decoded)
    ensures value { into.new ≡ instructions.made rows.Cmpm words.now }
    ensures instruction { IsInstruction into.new }
{
    *into = Decoded::of_words(
        1,
        Op::Cmpm(size(words), high_register(words), low_register(words)),
    )
}

/// CMP, CMPA, EOR and CMPM.
#[tactic(auto, unfolding(crate::specs::Nested::group_b))]
pub fn group_b(words: &[u16; 5], into: &mut Decoded)
    ensures value { into.new ≡ instructions.picked (nested.group_b (slice_index words.now 0)) words.now }
    ensures instruction { IsInstruction into.new }
{
    let word = words[0];
    match (word >> 6 & 3, word >> 8 & 1) {
        (3, _) if is_any(word) => cmpa(words, into),
        (3, _) => unmatched(words, into),
        (_, 0) if is_any(word) && !is_byte_of_address(word) => cmp(words, into),
        (_, 1) if word >> 3 & 7 == 1 => cmpm(words, into),
        (_, 1) if is_data_alterable(word) => eor(words, into),
        _ => unmatched(words, into),
    }
}

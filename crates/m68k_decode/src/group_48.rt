ghost use Rattle.std.specs.Prelude.{◌≡◌, slice_index, true};
ghost use Rattle.m68k_decode.specs.Addressing as classes;
ghost use Rattle.m68k_decode.specs.Instructions as instructions;
ghost use Rattle.m68k_decode.specs.Nested as nested;
ghost use Rattle.m68k_decode.specs.Rows as rows;
ghost use Rattle.m68k_decode.specs.Ops.{IsInstruction};

use crate::addressing::{is_control, is_control_alterable_or_predecrement, is_data_alterable};
use crate::fields::{low_register, second_word, size_by_bit_6};
use crate::illegal::unmatched;
use crate::operand::low_operand;
use crate::{Decoded, Op};
use md_word::Size;

#[tactic(auto, unfolding(crate::specs::Instructions::made))]
fn nbcd(words: &[u16; 5], into: &mut Decoded)
    ensures value { into.new ≡ instructions.made rows.Nbcd words.now }
    ensures instruction { IsInstruction into.new }
{
    let operand = low_operand(words, Size::Byte, 1);
    *into = Decoded::of_words(operand.end, Op::Nbcd(operand.mode))
}

#[tactic(auto, using(crate::proofs::Classes::control_kept), unfolding(crate::specs::Instructions::made))]
fn pea(words: &[u16; 5], into: &mut Decoded)
    requires { classes.control (classes.low_mode_number (slice_index words.now 0)) ≡ true }
    ensures value { into.new ≡ instructions.made rows.Pea words.now }
    ensures instruction { IsInstruction into.new }
{
    let operand = low_operand(words, Size::Long, 1);
    *into = Decoded::of_words(operand.end, Op::Pea(operand.mode))
}

#[tactic(auto, using(crate::proofs::Classes::control_alterable_or_predecrement_kept), unfolding(crate::specs::Instructions::made))]
fn movem_to_memory(words: &[u16; 5], into: &mut Decoded)
    requires { classes.control_alterable_or_predecrement (classes.low_mode_number (slice_index words.now 0)) ≡ true }
    ensures value { into.new ≡ instructions.made rows.MovemToMemory words.now }
    ensures instruction { IsInstruction into.new }
{
    let size = size_by_bit_6(words);
    let operand = low_operand(words, size, 2);
    *into = Decoded::of_words(
        operand.end,
        Op::MovemToMemory(size, second_word(words), operand.mode),
    )
}

/// NBCD, SWAP, PEA, EXT and MOVEM to memory.
#[tactic(auto, unfolding(crate::specs::Nested::group_48, crate::specs::Instructions::made))]
pub fn group_48(words: &[u16; 5], into: &mut Decoded)
    ensures value { into.new ≡ instructions.picked (nested.group_48 (slice_index words.now 0)) words.now }
    ensures instruction { IsInstruction into.new }
{
    let word = words[0];
    match (word >> 6 & 3, word >> 3 & 7) {
        (0, _) if is_data_alterable(word) => nbcd(words, into),
        (1, 0) => *into = Decoded::of_words(1, Op::Swap(low_register(words))),
        (1, _) if is_control(word) => pea(words, into),
        (2 | 3, 0) => *into = Decoded::of_words(
            1,
            Op::Ext(size_by_bit_6(words), low_register(words)),
        ),
        (2 | 3, _) if is_control_alterable_or_predecrement(word) => movem_to_memory(words, into),
        _ => unmatched(words, into),
    }
}

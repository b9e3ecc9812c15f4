ghost use Rattle.std.specs.Prelude.{◌≡◌, slice_index, true};
ghost use Rattle.m68k_decode.specs.Addressing as classes;
ghost use Rattle.m68k_decode.specs.Instructions as instructions;
ghost use Rattle.m68k_decode.specs.Nested as nested;
ghost use Rattle.m68k_decode.specs.Rows as rows;
ghost use Rattle.m68k_decode.specs.Ops.{IsInstruction};

use crate::addressing::is_control;
use crate::fields::{low_register, second_word};
use crate::illegal::unmatched;
use crate::operand::low_operand;
use crate::{Decoded, Op};
use md_word::Size;

#[tactic(auto, unfolding(crate::specs::Instructions::made))]
fn trap(words: &[u16; 5], into: &mut Decoded)
    ensures value { into.new ≡ instructions.made rows.Trap words.now }
    ensures instruction { IsInstruction into.new }
{
    let word = words[0];
    *into = Decoded::of_words(1, Op::Trap((word & 15) as u8))
}

#[tactic(auto, using(crate::proofs::Classes::control_kept), unfolding(crate::specs::Instructions::made))]
fn jsr(words: &[u16; 5], into: &mut Decoded)
    requires { classes.control (classes.low_mode_number (slice_index words.now 0)) ≡ true }
    ensures value { into.new ≡ instructions.made rows.Jsr words.now }
    ensures instruction { IsInstruction into.new }
{
    let operand = low_operand(words, Size::Long, 1);
    *into = Decoded::of_words(operand.end, Op::Jsr(operand.mode))
}

#[tactic(auto, using(crate::proofs::Classes::control_kept), unfolding(crate::specs::Instructions::made))]
fn jmp(words: &[u16; 5], into: &mut Decoded)
    requires { classes.control (classes.low_mode_number (slice_index words.now 0)) ≡ true }
    ensures value { into.new ≡ instructions.made rows.Jmp words.now }
    ensures instruction { IsInstruction into.new }
{
    let operand = low_operand(words, Size::Long, 1);
    *into = Decoded::of_words(operand.end, Op::Jmp(operand.mode))
}

/// TRAP, LINK, UNLK, MOVE USP, and the instructions without operands.
#[tactic(auto, unfolding(crate::specs::Nested::controls, crate::specs::Instructions::made))]
fn controls(words: &[u16; 5], into: &mut Decoded)
    ensures value { into.new ≡ instructions.picked (nested.controls (slice_index words.now 0)) words.now }
    ensures instruction { IsInstruction into.new }
{
    let word = words[0];
    match word & 63 {
        0..16 => trap(words, into),
        16..24 => *into = Decoded::of_words(2, Op::Link(low_register(words), second_word(words))),
        24..32 => *into = Decoded::of_words(1, Op::Unlk(low_register(words))),
        32..40 => *into = Decoded::of_words(1, Op::MoveToUsp(low_register(words))),
        40..48 => *into = Decoded::of_words(1, Op::MoveFromUsp(low_register(words))),
        48 => *into = Decoded::of_words(1, Op::Reset),
        49 => *into = Decoded::of_words(1, Op::Nop),
        50 => *into = Decoded::of_words(2, Op::Stop(second_word(words))),
        51 => *into = Decoded::of_words(1, Op::Rte),
        53 => *into = Decoded::of_words(1, Op::Rts),
        54 => *into = Decoded::of_words(1, Op::Trapv),
        55 => *into = Decoded::of_words(1, Op::Rtr),
        _ => unmatched(words, into),
    }
}

/// The instructions of control, JSR and JMP.
#[tactic(auto, unfolding(crate::specs::Nested::group_4e))]
pub fn group_4e(words: &[u16; 5], into: &mut Decoded)
    ensures value { into.new ≡ instructions.picked (nested.group_4e (slice_index words.now 0)) words.now }
    ensures instruction { IsInstruction into.new }
{
    let word = words[0];
    match word >> 6 & 3 {
        1 => controls(words, into),
        2 if is_control(word) => jsr(words, into),
        3 if is_control(word) => jmp(words, into),
        _ => unmatched(words, into),
    }
}

ghost use Rattle.std.specs.Prelude.{◌≡◌, slice_index, true};
ghost use Rattle.m68k_decode.specs.Addressing as classes;
ghost use Rattle.m68k_decode.specs.Instructions as instructions;
ghost use Rattle.m68k_decode.specs.Nested as nested;
ghost use Rattle.m68k_decode.specs.Rows as rows;
ghost use Rattle.m68k_decode.specs.Ops.{IsInstruction};

use crate::addressing::{is_control, is_control_or_postincrement, is_data, is_data_alterable};
use crate::fields::{high_register, second_word, size, size_by_bit_6};
use crate::group_4e::group_4e;
use crate::group_48::group_48;
use crate::illegal::{illegal, unmatched};
use crate::operand::low_operand;
use crate::{Decoded, Op};
use md_word::{Size, Task};

#[tactic(auto, unfolding(crate::specs::Instructions::made))]
fn unary(task: Task, words: &[u16; 5], into: &mut Decoded)
    ensures value { into.new ≡ instructions.made (rows.Unary task) words.now }
    ensures instruction { IsInstruction into.new }
{
    let size = size(words);
    let operand = low_operand(words, size, 1);
    *into = Decoded::of_words(operand.end, Op::Unary(task, size, operand.mode))
}

#[tactic(auto, unfolding(crate::specs::Instructions::made))]
fn move_from_sr(words: &[u16; 5], into: &mut Decoded)
    ensures value { into.new ≡ instructions.made rows.MoveFromSr words.now }
    ensures instruction { IsInstruction into.new }
{
    let operand = low_operand(words, Size::Word, 1);
    *into = Decoded::of_words(operand.end, Op::MoveFromSr(operand.mode))
}

#[tactic(auto, unfolding(crate::specs::Instructions::made))]
fn move_to_ccr(words: &[u16; 5], into: &mut Decoded)
    ensures value { into.new ≡ instructions.made rows.MoveToCcr words.now }
    ensures instruction { IsInstruction into.new }
{
    let operand = low_operand(words, Size::Word, 1);
    *into = Decoded::of_words(operand.end, Op::MoveToCcr(operand.mode))
}

#[tactic(auto, unfolding(crate::specs::Instructions::made))]
fn move_to_sr(words: &[u16; 5], into: &mut Decoded)
    ensures value { into.new ≡ instructions.made rows.MoveToSr words.now }
    ensures instruction { IsInstruction into.new }
{
    let operand = low_operand(words, Size::Word, 1);
    *into = Decoded::of_words(operand.end, Op::MoveToSr(operand.mode))
}

#[tactic(auto, unfolding(crate::specs::Instructions::made))]
fn tst(words: &[u16; 5], into: &mut Decoded)
    ensures value { into.new ≡ instructions.made rows.Tst words.now }
    ensures instruction { IsInstruction into.new }
{
    let size = size(words);
    let operand = low_operand(words, size, 1);
    *into = Decoded::of_words(operand.end, Op::Tst(size, operand.mode))
}

#[tactic(auto, unfolding(crate::specs::Instructions::made))]
fn tas(words: &[u16; 5], into: &mut Decoded)
    ensures value { into.new ≡ instructions.made rows.Tas words.now }
    ensures instruction { IsInstruction into.new }
{
    let operand = low_operand(words, Size::Byte, 1);
    *into = Decoded::of_words(operand.end, Op::Tas(operand.mode))
}

#[tactic(auto, using(crate::proofs::Classes::control_kept), unfolding(crate::specs::Instructions::made))]
fn lea(words: &[u16; 5], into: &mut Decoded)
    requires { classes.control (classes.low_mode_number (slice_index words.now 0)) ≡ true }
    ensures value { into.new ≡ instructions.made rows.Lea words.now }
    ensures instruction { IsInstruction into.new }
{
    let operand = low_operand(words, Size::Long, 1);
    *into = Decoded::of_words(operand.end, Op::Lea(high_register(words), operand.mode))
}

#[tactic(auto, unfolding(crate::specs::Instructions::made))]
fn chk(words: &[u16; 5], into: &mut Decoded)
    ensures value { into.new ≡ instructions.made rows.Chk words.now }
    ensures instruction { IsInstruction into.new }
{
    let operand = low_operand(words, Size::Word, 1);
    *into = Decoded::of_words(operand.end, Op::Chk(high_register(words), operand.mode))
}

#[tactic(auto, using(crate::proofs::Classes::control_or_postincrement_kept), unfolding(crate::specs::Instructions::made))]
fn movem_to_registers(words: &[u16; 5], into: &mut Decoded)
    requires { classes.control_or_postincrement (classes.low_mode_number (slice_index words.now 0)) ≡ true }
    ensures value { into.new ≡ instructions.made rows.MovemToRegisters words.now }
    ensures instruction { IsInstruction into.new }
{
    let size = size_by_bit_6(words);
    let operand = low_operand(words, size, 2);
    *into = Decoded::of_words(
        operand.end,
        Op::MovemToRegisters(size, second_word(words), operand.mode),
    )
}

/// LEA and CHK.
#[tactic(auto, unfolding(crate::specs::Nested::with_register))]
fn with_register(words: &[u16; 5], into: &mut Decoded)
    ensures value { into.new ≡ instructions.picked (nested.with_register (slice_index words.now 0)) words.now }
    ensures instruction { IsInstruction into.new }
{
    let word = words[0];
    match word >> 6 & 3 {
        2 if is_data(word) => chk(words, into),
        3 if is_control(word) => lea(words, into),
        _ => unmatched(words, into),
    }
}

/// MOVE from SR, to CCR and to SR.
#[tactic(auto, unfolding(crate::specs::Nested::with_status))]
fn with_status(words: &[u16; 5], into: &mut Decoded)
    ensures value { into.new ≡ instructions.picked (nested.with_status (slice_index words.now 0)) words.now }
    ensures instruction { IsInstruction into.new }
{
    let word = words[0];
    match word >> 9 & 3 {
        0 if is_data_alterable(word) => move_from_sr(words, into),
        2 if is_data(word) => move_to_ccr(words, into),
        3 if is_data(word) => move_to_sr(words, into),
        _ => unmatched(words, into),
    }
}

/// NEGX, CLR, NEG and NOT.
#[tactic(auto, unfolding(crate::specs::Nested::unaries))]
fn unaries(words: &[u16; 5], into: &mut Decoded)
    ensures value { into.new ≡ instructions.picked (nested.unaries (slice_index words.now 0)) words.now }
    ensures instruction { IsInstruction into.new }
{
    let word = words[0];
    if !is_data_alterable(word) {
        return unmatched(words, into);
    }
    match word >> 9 & 3 {
        0 => unary(Task::Negx, words, into),
        1 => unary(Task::Clr, words, into),
        2 => unary(Task::Neg, words, into),
        _ => unary(Task::Not, words, into),
    }
}

/// TST, TAS and ILLEGAL.
#[tactic(auto, unfolding(crate::specs::Nested::tests))]
fn tests(words: &[u16; 5], into: &mut Decoded)
    ensures value { into.new ≡ instructions.picked (nested.tests (slice_index words.now 0)) words.now }
    ensures instruction { IsInstruction into.new }
{
    let word = words[0];
    match word & 0xff {
        0xfc => illegal(words, into),
        0xc0.. if is_data_alterable(word) => tas(words, into),
        0..0xc0 if is_data_alterable(word) => tst(words, into),
        _ => unmatched(words, into),
    }
}

/// The miscellaneous instructions.
#[tactic(auto, unfolding(crate::specs::Nested::group_4))]
pub fn group_4(words: &[u16; 5], into: &mut Decoded)
    ensures value { into.new ≡ instructions.picked (nested.group_4 (slice_index words.now 0)) words.now }
    ensures instruction { IsInstruction into.new }
{
    let word = words[0];
    match (word >> 8 & 15, word >> 6 & 3) {
        (1 | 3 | 5 | 7 | 9 | 11 | 13 | 15, _) => with_register(words, into),
        (0 | 2 | 4 | 6, 3) => with_status(words, into),
        (0 | 2 | 4 | 6, _) => unaries(words, into),
        (8, _) => group_48(words, into),
        (10, _) => tests(words, into),
        (12, 2 | 3) if is_control_or_postincrement(word) => movem_to_registers(words, into),
        (14, _) => group_4e(words, into),
        _ => unmatched(words, into),
    }
}

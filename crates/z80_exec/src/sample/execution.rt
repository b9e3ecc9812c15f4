ghost use Rattle.std.specs.Prelude.{◌≡◌, false};
ghost use Rattle.arrayvec.specs.ArrayVec.{array_vec_len};
ghost use Rattle.z80_exec.specs.Access.Clauses.{Ends, done_of, memory_of};
ghost use Rattle.z80_exec.specs.Sample.Execution as execution;
ghost use Rattle.z80_exec.specs.Sample.Prediction.{Predicts};

use crate::regs80::pair_at;
use crate::rows::arithmetic::{change, operate};
use crate::rows::bits::test_bit;
use crate::rows::blocks::{block_compare, block_load};
use crate::rows::calls::{call, call_if, return_from, return_from_non_maskable, return_if};
use crate::rows::control::{accumulator, disable, enable, set_mode};
use crate::rows::exchanges::{exchange_af, exchange_all, exchange_de_hl, exchange_stack};
use crate::rows::jumps::{
    decrement_and_jump, jump, jump_if, jump_index, jump_relative, jump_relative_if,
};
use crate::rows::loads::{
    load, load_from_special, load_pair_from, load_stack_pointer, load_to_special, pop_pair,
    push_pair, store_pair,
};
use crate::rows::pairs::{
    add_pair, add_pair_with_carry, decrement_pair, increment_pair, subtract_pair_with_carry,
};
use crate::rows::ports::{block_input, block_output, input, input_at_number};
use crate::rows::rotates::{rotate_digits_left, rotate_digits_right};
use crate::{Context, Predicted80, Progress80, Regs80, Waiting};
use z80_decode::{Op80, Task80};

/// Carries out an instruction. On entry the program counter is after it. Answers whether it took the
/// longer of two times. The error is the access that waits for its answer.
#[tactic(auto, using(crate::proofs::Prediction::nothing_predicted))]
pub fn execute(
    op: Op80,
    context: &Context,
    regs: &mut Regs80,
    progress: &mut Progress80,
    predicted: &mut Predicted80,
) -> Result<bool, Waiting>
    requires fresh { array_vec_len progress.old.writes ≡ 0 }
    requires nothing { predicted.old.known ≡ false }
    ensures predicted { Predicts result predicted.new (execution.row op regs.old) (memory_of context.now) (done_of progress.old) }
    ensures value { Ends result regs.new (done_of progress.new) (execution.row op regs.old (memory_of context.now) (done_of progress.old)) }
{
    match op {
        Op80::Load(target, source) => {
            return load(target, source, context, regs, progress, predicted);
        }
        Op80::LoadFromSpecial(special) => load_from_special(special, regs),
        Op80::LoadToSpecial(special) => load_to_special(special, regs),
        Op80::LoadPair(pair, value) => regs.set_pair(pair, value),
        Op80::LoadIndex(index, at) => {
            return load_pair_from(pair_at(index), at, context, regs, progress);
        }
        Op80::LoadPairExtended(pair, at) => {
            return load_pair_from(pair, at, context, regs, progress);
        }
        Op80::StoreIndex(at, index) => {
            return store_pair(at, pair_at(index), context, regs, progress);
        }
        Op80::StorePairExtended(at, pair) => return store_pair(at, pair, context, regs, progress),
        Op80::LoadStackPointer(index) => load_stack_pointer(index, regs),
        Op80::Push(pair) => return push_pair(pair, context, regs, progress),
        Op80::Pop(pair) => return pop_pair(pair, context, regs, progress),
        Op80::ExchangeDeHl => exchange_de_hl(regs),
        Op80::ExchangeAf => exchange_af(regs),
        Op80::ExchangeAll => exchange_all(regs),
        Op80::ExchangeStack(index) => return exchange_stack(index, context, regs, progress),
        Op80::BlockLoad(block) => return block_load(block, context, regs, progress),
        Op80::BlockCompare(block) => return block_compare(block, context, regs, progress),
        Op80::Arithmetic(task, place) => return operate(task, place, context, regs, progress),
        Op80::Step(task, place) => return change(task, place, context, regs, progress),
        Op80::Accumulator(task) => accumulator(task, regs),
        Op80::Negate => accumulator(Task80::Neg, regs),
        Op80::Nop | Op80::Halt => {}
        Op80::DisableInterrupts => disable(regs),
        Op80::EnableInterrupts => enable(regs),
        Op80::SetInterruptMode(mode) => set_mode(mode, regs),
        Op80::AddPair(index, pair) => add_pair(index, pair, regs),
        Op80::AddPairWithCarry(pair) => add_pair_with_carry(pair, regs),
        Op80::SubtractPairWithCarry(pair) => subtract_pair_with_carry(pair, regs),
        Op80::IncrementPair(pair) => increment_pair(pair, regs),
        Op80::DecrementPair(pair) => decrement_pair(pair, regs),
        Op80::Change(task, place) => return change(task, place, context, regs, progress),
        Op80::TestBit(bit, place) => return test_bit(bit, place, context, regs, progress),
        Op80::RotateDigitsLeft => return rotate_digits_left(context, regs, progress),
        Op80::RotateDigitsRight => return rotate_digits_right(context, regs, progress),
        Op80::Jump(target) => jump(target, regs),
        Op80::JumpIf(condition, target) => return Ok(jump_if(condition, target, regs)),
        Op80::JumpRelative(distance) => jump_relative(distance, regs),
        Op80::JumpRelativeIf(condition, distance) => {
            return Ok(jump_relative_if(condition, distance, regs));
        }
        Op80::JumpIndex(index) => jump_index(index, regs),
        Op80::DecrementAndJump(distance) => return Ok(decrement_and_jump(distance, regs)),
        Op80::Call(target) => return call(target, context, regs, progress),
        Op80::CallIf(condition, target) => {
            return call_if(condition, target, context, regs, progress);
        }
        Op80::Return | Op80::ReturnFromInterrupt => return return_from(context, regs, progress),
        Op80::ReturnIf(condition) => return return_if(condition, context, regs, progress),
        Op80::ReturnFromNonMaskable => return return_from_non_maskable(context, regs, progress),
        Op80::Restart(target) => return call(u16::from(target), context, regs, progress),
        Op80::InputAtNumber(_) => input_at_number(regs),
        Op80::Input(place) => return input(place, context, regs, progress),
        Op80::BlockInput(block) => return block_input(block, context, regs, progress),
        Op80::OutputAtNumber(_) | Op80::Output(_) => {}
        Op80::BlockOutput(block) => return block_output(block, context, regs, progress),
        Op80::LonePrefix(_) | Op80::Undefined(_) => {}
    }
    Ok(false)
}

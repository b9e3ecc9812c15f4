//! Instructions that make no shared access, carried out at once, and LD of 8 bits up to a shared write.
ghost use Rattle.std.specs.Prelude.{◌≡◌, ◌<◌, ◌≤◌, ℕ, false, true, IfSome};
ghost use Rattle.z80_parcel.specs.Parcels.{Store, store_of};
ghost use Rattle.z80_exec.specs.Sample.Execution as execution;
ghost use Rattle.z80_exec.specs.Sample.Private.{AsksOnce, CarriesOut, ChangesRegisters, RunsPrivately};
ghost use Rattle.z80_exec.specs.Sample.Samples as samples;
ghost use Rattle.z80_exec.specs.Sample.Samples.{CoversAccesses};
ghost use Rattle.z80_exec.specs.Sample.Times as times;

mod operands;
mod rows;

use super::cache::{CachedInstruction, DecodeCache80};
use super::{fetch, finish_of};
use crate::access::memory::{LAST_FOUR, ram_bytes};
use crate::regs80::pair_at;
use crate::rows::control::{accumulator, disable, enable};
use crate::rows::exchanges::{exchange_af, exchange_all, exchange_de_hl};
use crate::rows::jumps::{
    decrement_and_jump, jump, jump_if, jump_index, jump_relative, jump_relative_if,
};
use crate::rows::loads::{load_from_special, load_stack_pointer, load_to_special};
use crate::rows::pairs::{
    add_pair, add_pair_with_carry, decrement_pair, increment_pair, subtract_pair_with_carry,
};
use crate::{Predicted80, Regs80, Step80, Waiting};
use md_word::Parcel;
use rows::{
    block_load, call, call_if, change, load, load_pair_from, load_shared, operate, pop_pair,
    push_pair, return_from, return_if, store_pair, test_bit,
};
use z80_decode::{Op80, Task80};

/// Carries out an instruction that works on the registers alone, or answers None. On entry the program
/// counter is after it. Answers whether it took the longer of two times.
#[inline(always)]
fn change_registers(op: Op80, regs: &mut Regs80) -> Option<bool>
    ensures { ChangesRegisters result (execution.row op regs.old) regs.old regs.new }
{
    match op {
        Op80::LoadFromSpecial(special) => load_from_special(special, regs),
        Op80::LoadToSpecial(special) => load_to_special(special, regs),
        Op80::LoadPair(pair, value) => regs.set_pair(pair, value),
        Op80::LoadStackPointer(index) => load_stack_pointer(index, regs),
        Op80::ExchangeDeHl => exchange_de_hl(regs),
        Op80::ExchangeAf => exchange_af(regs),
        Op80::ExchangeAll => exchange_all(regs),
        Op80::Accumulator(task) => accumulator(task, regs),
        Op80::Negate => accumulator(Task80::Neg, regs),
        Op80::Nop | Op80::Halt => {}
        Op80::DisableInterrupts => disable(regs),
        Op80::EnableInterrupts => enable(regs),
        Op80::AddPair(index, pair) => add_pair(index, pair, regs),
        Op80::AddPairWithCarry(pair) => add_pair_with_carry(pair, regs),
        Op80::SubtractPairWithCarry(pair) => subtract_pair_with_carry(pair, regs),
        Op80::IncrementPair(pair) => increment_pair(pair, regs),
        Op80::DecrementPair(pair) => decrement_pair(pair, regs),
        Op80::Jump(target) => jump(target, regs),
        Op80::JumpIf(condition, target) => return Some(jump_if(condition, target, regs)),
        Op80::JumpRelative(distance) => jump_relative(distance, regs),
        Op80::JumpRelativeIf(condition, distance) => {
            return Some(jump_relative_if(condition, distance, regs));
        }
        Op80::JumpIndex(index) => jump_index(index, regs),
        Op80::DecrementAndJump(distance) => return Some(decrement_and_jump(distance, regs)),
        _ => return None,
    }
    Some(false)
}

/// Carries out an instruction that makes no shared access, or answers None. On entry the program counter
/// is after it. Answers whether it took the longer of two times.
#[inline(always)]
fn execute(op: Op80, regs: &mut Regs80, parcel: &mut Parcel) -> Option<bool>
    ensures { CarriesOut result (execution.row op regs.old) regs.old regs.new (store_of parcel.old) (store_of parcel.new) }
{
    match op {
        Op80::Load(target, source) => load(target, source, regs, parcel),
        Op80::LoadIndex(index, at) => load_pair_from(pair_at(index), at, regs, parcel),
        Op80::LoadPairExtended(pair, at) => load_pair_from(pair, at, regs, parcel),
        Op80::StoreIndex(at, index) => store_pair(at, pair_at(index), regs, parcel),
        Op80::StorePairExtended(at, pair) => store_pair(at, pair, regs, parcel),
        Op80::Push(pair) => push_pair(pair, regs, parcel),
        Op80::Pop(pair) => pop_pair(pair, regs, parcel),
        Op80::BlockLoad(block) => block_load(block, regs, parcel),
        Op80::Arithmetic(task, place) => operate(task, place, regs, parcel),
        Op80::Step(task, place) => change(task, place, regs, parcel),
        Op80::Change(task, place) => change(task, place, regs, parcel),
        Op80::TestBit(bit, place) => test_bit(bit, place, regs, parcel),
        Op80::Call(target) => call(target, regs, parcel),
        Op80::CallIf(condition, target) => call_if(condition, target, regs, parcel),
        Op80::Return | Op80::ReturnFromInterrupt => return_from(regs, parcel),
        Op80::ReturnIf(condition) => return_if(condition, regs, parcel),
        Op80::Restart(target) => call(u16::from(target), regs, parcel),
        _ => change_registers(op, regs),
    }
}

/// The shared write that an instruction waits for, where it is an LD of 8 bits whose value is at hand;
/// else None. On entry the program counter is after it.
#[inline(always)]
fn waiting_write(op: Op80, regs: &Regs80, parcel: &Parcel) -> Option<Waiting>
    ensures { IfSome result (λ waiting. AsksOnce (execution.row op regs.now) waiting regs.now (store_of parcel.now)) }
{
    match op {
        Op80::Load(target, source) => load_shared(target, source, regs, parcel),
        _ => None,
    }
}

/// Keeps what an instruction results in that waits for its write: its shorter time, and the registers
/// after its fetch.
#[inline(always)]
fn predict_fetched(found: &CachedInstruction, regs: &Regs80, predicted: &mut Predicted80)
    requires short { found.now.short ≡ times.time_of found.now.decoded.op false }
    requires long { found.now.long ≡ times.time_of found.now.decoded.op true }
    ensures regs { predicted.new.regs ≡ regs.now }
    ensures time { predicted.new.finish.t ≡ times.time_of found.now.decoded.op false }
    ensures halted { predicted.new.finish.halted ≡ samples.halts found.now.decoded.op }
    ensures after_ei { predicted.new.finish.after_ei ≡ samples.is_ei found.now.decoded.op }
{
    predicted.known = true;
    predicted.regs = *regs;
    predicted.finish = finish_of(found, false);
}

/// The instruction that was decoded, as far as it comes with RAM alone; else nothing changes.
#[inline(always)]
fn run(
    found: &CachedInstruction,
    regs: &mut Regs80,
    parcel: &mut Parcel,
    predicted: &mut Predicted80,
) -> Option<Step80>
    requires rise { found.now.rise ≤ 2 }
    requires short { found.now.short ≡ times.time_of found.now.decoded.op false }
    requires long { found.now.long ≡ times.time_of found.now.decoded.op true }
    ensures { (first : ℕ) → found.now.rise ≡ samples.rise_of found.now.decoded.op first
        → RunsPrivately result predicted.new (samples.instruction found.now.decoded first regs.old) regs.old regs.new (store_of parcel.old) (store_of parcel.new) }
{
    let Regs80 { pc, r, .. } = *regs;
    fetch(found, regs);
    match execute(found.decoded.op, regs, parcel) {
        Some(taken) => Some(Step80::Done(finish_of(found, taken))),
        None => {
            let write = waiting_write(found.decoded.op, regs, parcel);
            predict_fetched(found, regs, predicted);
            regs.pc = pc;
            regs.r = r;
            match write {
                Some(waiting) => Some(Step80::Need(waiting)),
                None => None,
            }
        }
    }
}

/// Carries out the instruction at the program counter at once, where it lies in RAM, was decoded before
/// and makes no shared access, or comes to the write that an LD of 8 bits waits for, with what follows
/// its answer in `predicted`. Else it answers None. Only where it ends do the registers and the parcel
/// change, which has RAM and the bank register.
#[inline(always)]
pub fn run_private(
    regs: &mut Regs80,
    parcel: &mut Parcel,
    cache: &DecodeCache80,
    predicted: &mut Predicted80,
) -> Option<Step80>
    ensures value { RunsPrivately result predicted.new (samples.sampled 0 regs.old) regs.old regs.new (store_of parcel.old) (store_of parcel.new) }
    ensures covers { IfSome result (λ step. CoversAccesses step 0) }
{
    if regs.pc >= LAST_FOUR {
        return None;
    }
    let bytes = ram_bytes(regs.pc, &parcel.ram);
    match cache.find(regs.pc, &bytes) {
        Some(found) => run(found, regs, parcel, predicted),
        None => None,
    }
}

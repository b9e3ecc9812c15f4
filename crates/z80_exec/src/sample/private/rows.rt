//! The rows with operands in registers, in the instruction or in RAM. Each answers None, and changes
//! nothing, where its operands lie elsewhere; else whether it took the longer of two times.
ghost use Rattle.std.specs.Prelude.{IfSome};
ghost use Rattle.z80_parcel.specs.Parcels.{store_of};
ghost use Rattle.z80_exec.specs.Rows.Arithmetic as arithmetic;
ghost use Rattle.z80_exec.specs.Rows.Bits as bits;
ghost use Rattle.z80_exec.specs.Rows.Blocks as blocks;
ghost use Rattle.z80_exec.specs.Rows.Calls as calls;
ghost use Rattle.z80_exec.specs.Rows.Loads as loads;
ghost use Rattle.z80_exec.specs.Sample.Private.{AsksOnce, CarriesOut};

use super::operands::{
    operand, pop, push, put, ram_byte, ram_word, shared_address, write, write_word,
};
use crate::access::conditions::holds;
use crate::rows::blocks::{continues, go_on, transfer};
use crate::{Regs80, Waiting};
use md_word::Parcel;
use z80_alu::compute;
use z80_decode::{Bit, Block, Condition, Pair, Place8, Task80};

/// LD of 8 bits.
#[inline(never)]
pub fn load(target: Place8, source: Place8, regs: &mut Regs80, parcel: &mut Parcel) -> Option<bool>
    ensures { CarriesOut result (loads.load target source regs.old) regs.old regs.new (store_of parcel.old) (store_of parcel.new) }
{
    match operand(source, regs, parcel) {
        Some(value) => if put(target, value, regs, parcel) {
            Some(false)
        } else {
            None
        },
        None => None,
    }
}

/// The shared write that an LD of 8 bits waits for; None where it makes none, or its source is neither
/// in a register nor in the instruction nor in RAM.
#[inline(never)]
pub fn load_shared(
    target: Place8,
    source: Place8,
    regs: &Regs80,
    parcel: &Parcel,
) -> Option<Waiting>
    ensures { IfSome result (λ waiting. AsksOnce (loads.load target source regs.now) waiting regs.now (store_of parcel.now)) }
{
    match shared_address(target, regs) {
        Some(at) => match operand(source, regs, parcel) {
            Some(value) => Some(Waiting::Write(at, value)),
            None => None,
        },
        None => None,
    }
}

/// LD HL,(nn) and LD dd,(nn).
#[inline(never)]
pub fn load_pair_from(pair: Pair, at: u16, regs: &mut Regs80, parcel: &Parcel) -> Option<bool>
    ensures { CarriesOut result (loads.load_pair_from pair at regs.old) regs.old regs.new (store_of parcel.now) (store_of parcel.now) }
{
    match ram_word(at, parcel) {
        Some(value) => {
            regs.set_pair(pair, value);
            Some(false)
        }
        None => None,
    }
}

/// LD (nn),HL and LD (nn),dd.
#[inline(never)]
pub fn store_pair(at: u16, pair: Pair, regs: &Regs80, parcel: &mut Parcel) -> Option<bool>
    ensures { CarriesOut result (loads.store_pair at pair regs.now) regs.now regs.now (store_of parcel.old) (store_of parcel.new) }
{
    if write_word(at, regs.pair(pair), parcel) {
        Some(false)
    } else {
        None
    }
}

/// PUSH.
#[inline(never)]
pub fn push_pair(pair: Pair, regs: &mut Regs80, parcel: &mut Parcel) -> Option<bool>
    ensures { CarriesOut result (loads.push_pair pair regs.old) regs.old regs.new (store_of parcel.old) (store_of parcel.new) }
{
    if push(regs.pair(pair), regs, parcel) {
        Some(false)
    } else {
        None
    }
}

/// POP.
#[inline(never)]
pub fn pop_pair(pair: Pair, regs: &mut Regs80, parcel: &Parcel) -> Option<bool>
    ensures { CarriesOut result (loads.pop_pair pair regs.old) regs.old regs.new (store_of parcel.now) (store_of parcel.now) }
{
    match pop(regs, parcel) {
        Some(value) => {
            regs.set_pair(pair, value);
            Some(false)
        }
        None => None,
    }
}

/// LDI, LDD, LDIR, LDDR.
#[inline(never)]
pub fn block_load(block: Block, regs: &mut Regs80, parcel: &mut Parcel) -> Option<bool>
    ensures { CarriesOut result (blocks.block_load block regs.old) regs.old regs.new (store_of parcel.old) (store_of parcel.new) }
{
    match ram_byte(regs.hl, parcel) {
        Some(value) => {
            let again = continues(block, regs);
            if write(regs.de, value, parcel) {
                transfer(block, regs);
                Some(go_on(again, regs))
            } else {
                None
            }
        }
        None => None,
    }
}

/// An operation of A and an operand, with its result in A.
#[inline(never)]
pub fn operate(task: Task80, place: Place8, regs: &mut Regs80, parcel: &Parcel) -> Option<bool>
    ensures { CarriesOut result (arithmetic.arithmetic task place regs.old) regs.old regs.new (store_of parcel.now) (store_of parcel.now) }
{
    match operand(place, regs, parcel) {
        Some(value) => {
            let out = compute(task, regs.a(), value, regs.f());
            regs.set_af(out.value, out.f);
            Some(false)
        }
        None => None,
    }
}

/// Reads an operand, and writes the result in its place.
#[inline(never)]
pub fn change(task: Task80, place: Place8, regs: &mut Regs80, parcel: &mut Parcel) -> Option<bool>
    ensures { CarriesOut result (arithmetic.change task place regs.old) regs.old regs.new (store_of parcel.old) (store_of parcel.new) }
{
    match operand(place, regs, parcel) {
        Some(value) => {
            let out = compute(task, regs.a(), value, regs.f());
            if put(place, out.value, regs, parcel) {
                regs.set_f(out.f);
                Some(false)
            } else {
                None
            }
        }
        None => None,
    }
}

/// BIT.
#[inline(never)]
pub fn test_bit(bit: Bit, place: Place8, regs: &mut Regs80, parcel: &Parcel) -> Option<bool>
    ensures { CarriesOut result (bits.test_bit bit place regs.old) regs.old regs.new (store_of parcel.now) (store_of parcel.now) }
{
    match operand(place, regs, parcel) {
        Some(value) => {
            let out = compute(Task80::Test(bit), regs.a(), value, regs.f());
            regs.set_f(out.f);
            Some(false)
        }
        None => None,
    }
}

/// CALL nn, and RST.
#[inline(never)]
pub fn call(target: u16, regs: &mut Regs80, parcel: &mut Parcel) -> Option<bool>
    ensures { CarriesOut result (calls.call target regs.old) regs.old regs.new (store_of parcel.old) (store_of parcel.new) }
{
    if push(regs.pc, regs, parcel) {
        regs.pc = target;
        Some(true)
    } else {
        None
    }
}

/// CALL cc,nn.
#[inline(never)]
#[tactic(auto, unfolding(crate::specs::Rows::Calls::call_if))]
pub fn call_if(
    condition: Condition,
    target: u16,
    regs: &mut Regs80,
    parcel: &mut Parcel,
) -> Option<bool>
    ensures { CarriesOut result (calls.call_if condition target regs.old) regs.old regs.new (store_of parcel.old) (store_of parcel.new) }
{
    if holds(condition, regs.f()) {
        call(target, regs, parcel)
    } else {
        Some(false)
    }
}

/// RET, and RETI.
#[inline(never)]
pub fn return_from(regs: &mut Regs80, parcel: &Parcel) -> Option<bool>
    ensures { CarriesOut result (calls.return_from regs.old) regs.old regs.new (store_of parcel.now) (store_of parcel.now) }
{
    match pop(regs, parcel) {
        Some(target) => {
            regs.pc = target;
            Some(true)
        }
        None => None,
    }
}

/// RET cc.
#[inline(never)]
#[tactic(auto, unfolding(crate::specs::Rows::Calls::return_if))]
pub fn return_if(condition: Condition, regs: &mut Regs80, parcel: &Parcel) -> Option<bool>
    ensures { CarriesOut result (calls.return_if condition regs.old) regs.old regs.new (store_of parcel.now) (store_of parcel.now) }
{
    if holds(condition, regs.f()) {
        return_from(regs, parcel)
    } else {
        Some(false)
    }
}

//! Operands in registers, in the instruction or in RAM, and the stack in RAM.
ghost use Rattle.std.specs.Prelude.{IfSome};
ghost use Rattle.z80_parcel.specs.Parcels.{store_of};
ghost use Rattle.z80_exec.specs.Access.Actions as actions;
ghost use Rattle.z80_exec.specs.Access.Operands as operands;
ghost use Rattle.z80_exec.specs.Sample.Private.{Finds, FindsPopped, IsSharedAt, Puts, Writes};

use crate::Regs80;
use crate::access::memory::is_shared_write;
use crate::access::operands::address;
use crate::regs80::{high, low};
use md_word::Parcel;
use z80_decode::Place8;
use z80_parcel::{RAM_END, read, store_byte};

/// The byte of RAM at an address; None at another address.
#[inline(always)]
pub fn ram_byte(at: u16, parcel: &Parcel) -> Option<u8>
    ensures { Finds result (actions.read at) (store_of parcel.now) }
{
    if at < RAM_END {
        Some(read(at, parcel))
    } else {
        None
    }
}

/// The word at an address where both bytes lie in RAM, its low byte first; else None.
#[inline(always)]
pub fn ram_word(at: u16, parcel: &Parcel) -> Option<u16>
    ensures { Finds result (actions.read_word at) (store_of parcel.now) }
{
    let above = at.wrapping_add(1);
    if at >= RAM_END || above >= RAM_END {
        return None;
    }
    Some(u16::from(read(above, parcel)) * 0x100 + u16::from(read(at, parcel)))
}

/// An operand in a register, in the instruction or in RAM; None of another.
#[inline(always)]
pub fn operand(place: Place8, regs: &Regs80, parcel: &Parcel) -> Option<u8>
    ensures { Finds result (operands.fetch place regs.now) (store_of parcel.now) }
{
    match address(place, regs) {
        Some(at) => ram_byte(at, parcel),
        None => Some(regs.byte(place)),
    }
}

/// Writes a byte of RAM; answers whether the address is one of RAM.
#[inline(always)]
pub fn write(at: u16, value: u8, parcel: &mut Parcel) -> bool
    ensures { Writes result (actions.write at value) (store_of parcel.old) (store_of parcel.new) }
{
    if at < RAM_END {
        store_byte(at, value, parcel);
        true
    } else {
        false
    }
}

/// Writes a word, its low byte first; answers whether both bytes lie in RAM.
#[inline(always)]
pub fn write_word(at: u16, value: u16, parcel: &mut Parcel) -> bool
    ensures { Writes result (actions.write_word at value) (store_of parcel.old) (store_of parcel.new) }
{
    let above = at.wrapping_add(1);
    if at >= RAM_END || above >= RAM_END {
        return false;
    }
    store_byte(at, low(value), parcel);
    store_byte(above, high(value), parcel);
    true
}

/// Puts a byte in a register or in RAM; answers whether its place is one of these.
#[inline(always)]
pub fn put(place: Place8, value: u8, regs: &mut Regs80, parcel: &mut Parcel) -> bool
    ensures { Puts result (operands.put place value regs.old) regs.old regs.new (store_of parcel.old) (store_of parcel.new) }
{
    match address(place, regs) {
        Some(at) => write(at, value, parcel),
        None => {
            regs.set_byte(place, value);
            true
        }
    }
}

/// The address of a place where a write is shared with other chips; None of another place.
#[inline(always)]
pub fn shared_address(place: Place8, regs: &Regs80) -> Option<u16>
    ensures { IfSome result (λ at. IsSharedAt place at regs.now) }
{
    match address(place, regs) {
        Some(at) => { if is_shared_write(at) { Some(at) } else { None } }
        None => None,
    }
}

/// Pushes a word into RAM; answers whether both bytes lie there.
#[inline(always)]
pub fn push(value: u16, regs: &mut Regs80, parcel: &mut Parcel) -> bool
    ensures { Puts result (operands.push value regs.old) regs.old regs.new (store_of parcel.old) (store_of parcel.new) }
{
    let above = regs.sp.wrapping_sub(1);
    let below = above.wrapping_sub(1);
    if above >= RAM_END || below >= RAM_END {
        return false;
    }
    store_byte(above, high(value), parcel);
    store_byte(below, low(value), parcel);
    regs.sp = below;
    true
}

/// Pops a word from RAM; None where a byte does not lie there.
#[inline(always)]
pub fn pop(regs: &mut Regs80, parcel: &Parcel) -> Option<u16>
    ensures { FindsPopped result (operands.pop regs.old) regs.old regs.new (store_of parcel.now) }
{
    match ram_word(regs.sp, parcel) {
        Some(value) => {
            regs.sp = regs.sp.wrapping_add(2);
            Some(value)
        }
        None => None,
    }
}

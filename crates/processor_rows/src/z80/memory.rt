// Parts of the Z80 by themselves: its RAM and bank register, its registers at a reset, and the flags of an input.
use crate::z80::registers::{registers_of, tell, values_of};
use crate::z80::setting::Setting;
use md_word::Parcel;
use row_lines::{RowError, byte, parted, push, text_of, word};
use std::alloc::{AllocError, Global};
use std::fmt::Write;
use z80_alu::{Task80, compute};
use z80_parcel::store_bytes;

/// Writes out the bank register, and the bytes of RAM that are not 0.
fn tell_memory(alloc: Global, parcel: &Parcel) -> Result<String, AllocError> {
    let mut text = format!(in alloc; "BANK={:03X}", parcel.bank)?;
    for at in 0..0x2000usize {
        put_byte(&mut text, at, parcel.ram[at])?;
    }
    Ok(text)
}

fn put_byte(text: &mut String, at: usize, value: u8) -> Result<(), AllocError> {
    if value != 0 {
        write!(text, " @{at:04X}={value:02X}")?;
    }
    Ok(())
}

/// The write `.6000=01`.
fn write_of(text: &str) -> Result<(u16, u8), RowError> {
    let (at, value) = parted(text, '=')?;
    match at.strip_prefix('.') {
        Some(at) => Ok((word(at)?, byte(value)?)),
        None => Err(RowError::NoSuchLine),
    }
}

fn writes_of(alloc: Global, words: &str) -> Result<Vec<(u16, u8)>, RowError> {
    let mut writes = Vec::new(alloc);
    for text in words.split(' ') {
        push(&mut writes, write_of(text)?)?;
    }
    Ok(writes)
}

/// RAM and the bank register after writes.
fn stored(alloc: Global, before: &str, writes: &[(u16, u8)]) -> Result<String, RowError> {
    let mut setting = Setting::read(alloc, before)?;
    store_bytes(writes, &mut setting.parcel);
    Ok(tell_memory(alloc, &setting.parcel)?)
}

/// RAM and the bank register after writes, each by itself, which follow what is set up.
/// `NoSuchLine` where a word is none.
pub fn store(alloc: Global, words: &str) -> Result<String, RowError> {
    let (before, words) = parted(words, ' ')?;
    stored(alloc, before, &writes_of(alloc, words)?)
}

/// The registers that a reset changes; `NoSuchLine` where a word is none.
pub fn reset(alloc: Global, words: &str) -> Result<String, RowError> {
    let setting = Setting::read(alloc, words)?;
    let mut regs = registers_of(&setting.values);
    regs.reset();
    let mut text = String::new(alloc);
    tell(&mut text, &values_of(&regs), &setting.values)?;
    text_of(alloc, text.trim_end())
}

/// The byte that IN loads into a register and the flags after it, of the byte and the flags before it.
/// `NoSuchLine` where a word is none.
pub fn input(alloc: Global, words: &str) -> Result<String, RowError> {
    let (value, flags) = parted(words, ' ')?;
    let out = compute(Task80::In, 0xaa, byte(value)?, byte(flags)?);
    Ok(both(alloc, out.value, out.f)?)
}

fn both(alloc: Global, value: u8, flags: u8) -> Result<String, AllocError> {
    format!(in alloc; "{value:02X} {flags:02X}")
}

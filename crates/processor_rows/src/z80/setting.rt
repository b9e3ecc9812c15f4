use crate::z80::registers::{USUAL, Values, registers_of, set, values_of};
use md_word::Parcel;
use rom_header::Cart;
use row_lines::{RowError, byte, word};
use std::alloc::{AllocError, Global};
use z80_parcel::{RAM_END, first, store_byte};

/// What is set up before a sample.
#[derive(Drop)]
pub struct Setting {
    pub parcel: Parcel,
    pub values: Values,
    /// 0 for an instruction, 1 for an interrupt.
    pub cause: u8,
    /// The address of the next byte of the instruction.
    pub next: u16,
}

/// The bytes of a cartridge whose byte k is the low byte of k + k / 100h, but for its magic at 100h.
fn image(alloc: Global) -> Result<Vec<u8>, AllocError> {
    let mut image = Vec::new(alloc);
    for k in 0..0x8200u32 {
        image.push(match k {
            0x100 => b'S',
            0x101 => b'E',
            0x102 => b'G',
            0x103 => b'A',
            _ => ((k + k / 0x100) % 0x100) as u8,
        })?;
    }
    Ok(image)
}

/// That cartridge. It fails where there is no memory for it.
pub fn cartridge(alloc: Global) -> Result<Cart, RowError> {
    match Cart::accept(alloc, image(alloc)?) {
        Ok(cart) => Ok(cart),
        Err(_) => Err(RowError::Memory),
    }
}

impl Setting {
    /// What words say: bytes of an instruction, registers, bytes of RAM `@1000=58`, the bank register `BANK=` and
    /// the cause `CAUSE=`. `NoSuchLine` where a word is none, or a register does not fit.
    pub fn read(alloc: Global, words: &str) -> Result<Setting, RowError> {
        let mut setting = Setting::begun(alloc)?;
        setting.take_all(words)?;
        Ok(setting)
    }

    /// What is set up where nothing is said of it.
    fn begun(alloc: Global) -> Result<Setting, RowError> {
        match first(alloc) {
            Ok(parcel) => Ok(Setting {
                parcel,
                values: USUAL,
                cause: 0,
                next: 0x100,
            }),
            Err(_) => Err(RowError::Memory),
        }
    }

    fn take_all(&mut self, words: &str) -> Result<(), RowError> {
        for word in words.split(' ') {
            self.take(word)?;
        }
        if values_of(&registers_of(&self.values)) == self.values {
            Ok(())
        } else {
            Err(RowError::NoSuchLine)
        }
    }

    fn take(&mut self, text: &str) -> Result<(), RowError> {
        match text.split_once('=') {
            Some((name, value)) => self.set(name, value),
            None => self.put_next(byte(text)?),
        }
    }

    /// Puts the next byte of the instruction.
    fn put_next(&mut self, value: u8) -> Result<(), RowError> {
        let at = self.next;
        self.next = at.wrapping_add(1);
        self.put(at, value)
    }

    fn set(&mut self, name: &str, value: &str) -> Result<(), RowError> {
        if let Some(at) = name.strip_prefix('@') {
            return self.put(word(at)?, byte(value)?);
        }
        if name == "CAUSE" {
            self.cause = byte(value)?;
            return Ok(());
        }
        self.set_word(name, word(value)?)
    }

    fn set_word(&mut self, name: &str, value: u16) -> Result<(), RowError> {
        match name {
            "BANK" => self.set_bank(value),
            _ => set(&mut self.values, name, value),
        }
    }

    fn set_bank(&mut self, bank: u16) -> Result<(), RowError> {
        if bank >= 512 {
            return Err(RowError::NoSuchLine);
        }
        self.parcel.bank = bank;
        Ok(())
    }

    /// Puts a byte into RAM.
    fn put(&mut self, at: u16, value: u8) -> Result<(), RowError> {
        if at >= RAM_END {
            return Err(RowError::NoSuchLine);
        }
        store_byte(at, value, &mut self.parcel);
        Ok(())
    }
}

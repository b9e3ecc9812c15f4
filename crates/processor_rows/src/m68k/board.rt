use crate::m68k::asked::Asked;
use crate::m68k::changes::{change, range_of};
use crate::m68k::events::{ahead, begun, pins, sample, take};
use crate::m68k::registers::{registers, value_of};
use crate::m68k::requests::put_access;
use m68k_chip::{CHIP_SIZE, Chip68};
use md_word::{Request68, Unspell};
use rom_header::Cart;
use row_lines::{
    RowError, decimal_of, digits_of, first_word, hexadecimal, long_of, number, part_of, parted,
    text_of, word,
};
use std::alloc::Global;
use std::sync::Arc;

/// A 68000 with its cartridge, and bytes that keep one.
#[derive(Drop)]
pub struct Board {
    image: [u8; 512],
    chip: Option<Chip68>,
    bytes: Vec<u8>,
}

/// Appends the bytes that keep a 68000 at a cycle.
fn spelled(alloc: Global, chip: &Chip68, at: u64) -> Result<Vec<u8>, RowError> {
    let mut bytes = Vec::with_capacity(alloc, CHIP_SIZE)?;
    chip.spell(at, &mut bytes);
    Ok(bytes)
}

fn shared(alloc: Global, cart: Cart) -> Result<Arc<Cart>, RowError> {
    match Arc::new(alloc, cart) {
        Ok(cart) => Ok(cart),
        Err(_) => Err(RowError::Memory),
    }
}

impl Board {
    /// Without a 68000.
    pub fn new(alloc: Global) -> Board {
        Board {
            image: [0; 512],
            chip: None,
            bytes: Vec::new(alloc),
        }
    }

    fn cart(&self, alloc: Global) -> Result<Arc<Cart>, RowError> {
        match Cart::accept(alloc, self.image.to_vec(alloc)?) {
            Ok(cart) => shared(alloc, cart),
            Err(_) => Err(RowError::NoSuchLine),
        }
    }

    /// Powers on with a stack pointer, a program counter and a program at 1C0h.
    pub fn power_on(&mut self, alloc: Global, rest: &str) -> Result<(), RowError> {
        let asked = Asked::of(&registers(), rest)?;
        self.image = image_of(&asked);
        match Chip68::power_on(alloc, self.cart(alloc)?) {
            Ok(chip) => {
                self.chip = Some(chip);
                Ok(())
            }
            Err(_) => Err(RowError::Memory),
        }
    }

    fn chip(&mut self) -> Result<&mut Chip68, RowError> {
        self.chip.as_mut().ok_or(RowError::NoSuchName)
    }

    /// `sample LEVEL`
    pub fn sample(&mut self, alloc: Global, rest: &str) -> Result<String, RowError> {
        let pins = pins(rest)?;
        match sample(self.chip()?, pins) {
            Some(cycle) => decimal_of(alloc, "", cycle),
            None => text_of(alloc, "no sample"),
        }
    }

    /// `ahead LEVEL END`
    pub fn ahead(&mut self, alloc: Global, rest: &str) -> Result<String, RowError> {
        let (level, end) = parted(rest, ' ')?;
        let pins = pins(level)?;
        let end = number(end)?;
        match ahead(self.chip()?, pins, end) {
            Some((cycle, true)) => decimal_of(alloc, "sample ", cycle),
            Some((cycle, false)) => decimal_of(alloc, "access ", cycle),
            None => text_of(alloc, "no sample"),
        }
    }

    /// `access VALUE`, or `access` of what reads nothing
    pub fn access(&mut self, alloc: Global, rest: &str) -> Result<String, RowError> {
        let value = if rest.is_empty() { 0 } else { word(rest)? };
        match take(self.chip()?, value) {
            Some((cycle, request)) => access_reported(alloc, cycle, request, value),
            None => text_of(alloc, "no access"),
        }
    }

    /// `begins`
    pub fn begins(&mut self, alloc: Global) -> Result<String, RowError> {
        match begun(self.chip()?) {
            Some(at) => long_of(alloc, "", at),
            None => text_of(alloc, "none"),
        }
    }

    /// `halted`
    pub fn halted(&mut self, alloc: Global) -> Result<String, RowError> {
        match self.chip()?.halted() {
            Some(since) => decimal_of(alloc, "since ", since),
            None => text_of(alloc, "no"),
        }
    }

    /// `register NAME`
    pub fn register(&mut self, alloc: Global, rest: &str) -> Result<String, RowError> {
        long_of(alloc, "", value_of(self.chip()?.regs(), rest)?)
    }

    /// `ram ADDRESS COUNT`
    pub fn ram(&mut self, alloc: Global, rest: &str) -> Result<String, RowError> {
        let (at, count) = parted(rest, ' ')?;
        let at = hexadecimal(at)? % 0x1_0000;
        let count = number(count)? % 0x1_0000;
        digits_of(
            alloc,
            part_of(self.chip()?.ram(), at as usize, count as usize)?,
        )
    }

    fn bytes_at(&mut self, alloc: Global, cycle: &str) -> Result<Vec<u8>, RowError> {
        let at = number(cycle)?;
        spelled(alloc, self.chip()?, at)
    }

    /// `state CYCLE PLACE COUNT`: bytes that keep the 68000
    pub fn state(&mut self, alloc: Global, rest: &str) -> Result<String, RowError> {
        let (cycle, rest) = parted(rest, ' ')?;
        let (from, count) = range_of(rest)?;
        let bytes = self.bytes_at(alloc, cycle)?;
        digits_of(alloc, part_of(&bytes, from, count)?)
    }

    /// `keep CYCLE`: keeps the bytes that keep the 68000
    pub fn keep(&mut self, alloc: Global, rest: &str) -> Result<(), RowError> {
        self.bytes = self.bytes_at(alloc, rest)?;
        Ok(())
    }

    /// `same CYCLE`: whether the bytes are those that were kept
    pub fn same(&mut self, alloc: Global, rest: &str) -> Result<String, RowError> {
        let bytes = self.bytes_at(alloc, rest)?;
        let is_same = bytes.as_slice() == self.bytes.as_slice();
        text_of(alloc, if is_same { "yes" } else { "no" })
    }

    /// `return CYCLE`: the 68000 is the one that its own bytes keep
    pub fn go_back(&mut self, alloc: Global, rest: &str) -> Result<String, RowError> {
        let bytes = self.bytes_at(alloc, rest)?;
        self.unspell(alloc, bytes.as_slice(), rest)
    }

    /// The 68000 is the one that these bytes keep, or they are refused.
    fn unspell(&mut self, alloc: Global, bytes: &[u8], cycle: &str) -> Result<String, RowError> {
        let at = number(cycle)?;
        match Chip68::unspell(alloc, bytes, at, self.cart(alloc)?) {
            Ok(chip) => {
                self.chip = Some(chip);
                text_of(alloc, "accepted")
            }
            Err(Unspell::Rule { place }) => decimal_of(alloc, "refused at ", place),
            Err(Unspell::NoMemory) => Err(RowError::Memory),
        }
    }

    /// `bytes CHANGES`: bytes of this spelling, which begin as none
    pub fn set_bytes(&mut self, alloc: Global, rest: &str) -> Result<(), RowError> {
        self.bytes.clear();
        change(alloc, &mut self.bytes, rest)
    }

    /// `read CYCLE CHANGES`: whether the bytes with these changes keep a 68000 at a cycle
    pub fn read(&mut self, alloc: Global, rest: &str) -> Result<String, RowError> {
        let (cycle, changes) = first_word(rest);
        let mut bytes = self.bytes.as_slice().to_vec(alloc)?;
        change(alloc, &mut bytes, changes)?;
        self.unspell(alloc, bytes.as_slice(), cycle)
    }
}

fn access_reported(
    alloc: Global,
    cycle: u64,
    request: Request68,
    value: u16,
) -> Result<String, RowError> {
    let mut text = format!(in alloc; "{cycle}")?;
    put_access(&mut text, request, value)?;
    Ok(text)
}

/// A cartridge of 512 bytes.
fn image_of(asked: &Asked) -> [u8; 512] {
    let mut image = [0; 512];
    image[..4].copy_from_slice(&asked.regs.ssp.to_be_bytes());
    image[4..8].copy_from_slice(&asked.regs.pc.to_be_bytes());
    image[0x100..0x104].copy_from_slice(b"SEGA");
    let mut place = 0x1c0usize;
    for word in asked.words {
        let [high, low] = word.to_be_bytes();
        if place < 0x1ff {
            image[place] = high;
            image[place + 1] = low;
        }
        place = place.wrapping_add(2);
    }
    image
}

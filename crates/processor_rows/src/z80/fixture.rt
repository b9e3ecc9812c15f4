use crate::z80::events::{power_on, request, sample, spell, state};
use crate::z80::instructions::{count, instruction};
use crate::z80::memory::{input, reset, store};
use crate::z80::samples;
use crate::z80::setting::{Setting, cartridge};
use rom_header::Cart;
use row_lines::{Fixture, RowError, first_word};
use std::alloc::Global;
use z80_chip::Chip80;

/// A cartridge, and the Z80 of a row with a head.
#[derive(Drop)]
pub struct Z80 {
    pub alloc: Global,
    pub cart: Cart,
    pub chip: Option<Chip80>,
}

impl Z80 {
    pub fn new(alloc: Global) -> Result<Z80, RowError> {
        let cart = cartridge(alloc)?;
        Ok(Z80 {
            alloc,
            cart,
            chip: None,
        })
    }

    /// The Z80 of the row; `NoSuchName` where none is set up.
    pub fn chip(&mut self) -> Result<&mut Chip80, RowError> {
        self.chip.as_mut().ok_or(RowError::NoSuchName)
    }

    fn sample(&self, asked: &str, wanted: &str) -> Result<String, RowError> {
        let setting = Setting::read(self.alloc, asked)?;
        samples::sample(self.alloc, &self.cart, &setting, wanted)
    }
}

impl Fixture for Z80 {
    fn begin(&mut self) -> Result<(), RowError> {
        self.chip = None;
        Ok(())
    }

    fn obey(&mut self, line: &str) -> Result<(), RowError> {
        match line {
            "power-on" => power_on(self),
            _ => Err(RowError::NoSuchLine),
        }
    }

    fn answer(&mut self, asked: &str, wanted: &str) -> Result<String, RowError> {
        let (verb, words) = first_word(asked);
        match verb {
            "code" => instruction(self.alloc, words),
            "count" => count(self.alloc, words),
            "store" => store(self.alloc, words),
            "reset" => reset(self.alloc, words),
            "input" => input(self.alloc, words),
            "sample" => sample(self, words),
            "request" => request(self),
            "state" => state(self, words),
            "spell" => spell(self, words, wanted),
            _ => self.sample(asked, wanted),
        }
    }
}

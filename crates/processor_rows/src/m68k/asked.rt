use crate::m68k::registers::set;
use md_word::{Regs, Spent};
use row_lines::{RowError, long, readable, word};

/// What a question says: the words of an instruction, the registers, and what is beside them.
#[derive(Clone, Copy)]
pub struct Asked {
    pub words: [u16; 5],
    pub count: usize,
    pub regs: Regs,
    pub spent: Spent,
    /// What a sample carries out: 0 an instruction, 1 to 7 an interrupt of that level, 8 a trace.
    pub cause: u8,
    pub vector: u32,
    pub address: u32,
    pub is_read: bool,
}

fn low_byte(value: u32) -> Result<u8, RowError> {
    readable(u8::try_from(value))
}

impl Asked {
    /// Of these registers, and of nothing else.
    pub fn begun(regs: &Regs) -> Asked {
        Asked {
            words: [0; 5],
            count: 0,
            regs: *regs,
            spent: Spent {
                taken: false,
                expired: false,
                count: 0,
                cause: 0,
                accesses: 0,
            },
            cause: 0,
            vector: 0,
            address: 0,
            is_read: true,
        }
    }

    /// Of these registers and a text.
    pub fn of(regs: &Regs, text: &str) -> Result<Asked, RowError> {
        let mut asked = Asked::begun(regs);
        for token in text.split_whitespace() {
            asked.take(token)?;
        }
        Ok(asked)
    }

    /// Takes what is next in a text.
    pub fn take(&mut self, token: &str) -> Result<(), RowError> {
        match token {
            "TAKEN" => self.spent.taken = true,
            "EXPIRED" => self.spent.expired = true,
            "WRITE" => self.is_read = false,
            _ => return self.take_value(token),
        }
        Ok(())
    }

    fn take_value(&mut self, token: &str) -> Result<(), RowError> {
        match token.split_once('=') {
            Some((name, value)) => self.set(name, long(value)?),
            None if token.len() == 4 => self.add(word(token)?),
            None => Err(RowError::NoSuchLine),
        }
    }

    fn set(&mut self, name: &str, value: u32) -> Result<(), RowError> {
        match name {
            "N" => self.spent.count = low_byte(value)?,
            "E" => self.spent.cause = low_byte(value)?,
            "CAUSE" => self.cause = low_byte(value)?,
            "VECTOR" => self.vector = value,
            "ADDRESS" => self.address = value,
            _ => return set(&mut self.regs, name, value),
        }
        Ok(())
    }

    fn add(&mut self, word: u16) -> Result<(), RowError> {
        match self.words.get_mut(self.count) {
            Some(place) => {
                *place = word;
                self.count = self.count.wrapping_add(1);
                Ok(())
            }
            None => Err(RowError::NoSuchLine),
        }
    }
}

use crate::text::coded::{both, disassembled, encoded};
use crate::text::ranges::ranged;
use crate::text::sources::{assembled, fault_of, token};
use row_lines::{Fixture, RowError, first_word};
use std::alloc::Global;

/// The image that the last source of a row was assembled to.
#[derive(Drop)]
pub struct Setup {
    alloc: Global,
    image: Vec<u8>,
}

impl Setup {
    /// Of no source.
    pub fn new(alloc: Global) -> Setup {
        Setup {
            alloc,
            image: Vec::new(alloc),
        }
    }

    /// `source TEXT`: its length, or its fault
    fn source(&mut self, alloc: Global, text: &str) -> Result<String, RowError> {
        self.image.clear();
        match assembled(alloc, text, &mut self.image)? {
            None => Ok(format!(in alloc; "{} bytes", self.image.len())?),
            Some(fault) => fault_of(alloc, fault),
        }
    }
}

impl Fixture for Setup {
    fn begin(&mut self) -> Result<(), RowError> {
        self.image = Vec::new(self.alloc);
        Ok(())
    }

    fn obey(&mut self, _round_trips: &str) -> Result<(), RowError> {
        Err(RowError::NoSuchLine)
    }

    fn answer(&mut self, asked: &str, wanted: &str) -> Result<String, RowError> {
        let alloc = self.alloc;
        let (verb, rest) = first_word(asked);
        match verb {
            "68000" | "Z80" => both(alloc, asked, wanted),
            "disassemble" => disassembled(alloc, rest),
            "assemble" => encoded(alloc, rest),
            "source" => self.source(alloc, rest),
            "bytes" => token(alloc, self.image.as_slice(), rest),
            _ => ranged(alloc, verb, rest),
        }
    }
}

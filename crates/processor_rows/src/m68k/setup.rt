use crate::m68k::board::Board;
use crate::m68k::plain::answer_of;
use crate::m68k::registers::{registers, set_all};
use md_word::Regs;
use row_lines::{Fixture, RowError, first_word};
use std::alloc::Global;

/// What the steps of a row have set up.
#[derive(Drop)]
pub struct Setup {
    alloc: Global,
    regs: Regs,
    board: Board,
}

impl Setup {
    /// Of no step.
    pub fn new(alloc: Global) -> Setup {
        Setup {
            alloc,
            regs: registers(),
            board: Board::new(alloc),
        }
    }
}

impl Fixture for Setup {
    fn begin(&mut self) -> Result<(), RowError> {
        self.regs = registers();
        self.board = Board::new(self.alloc);
        Ok(())
    }

    fn obey(&mut self, said: &str) -> Result<(), RowError> {
        let alloc = self.alloc;
        let (verb, rest) = first_word(said);
        match verb {
            "power-on" => self.board.power_on(alloc, rest),
            "keep" => self.board.keep(alloc, rest),
            "bytes" => self.board.set_bytes(alloc, rest),
            _ => set_all(&mut self.regs, said),
        }
    }

    fn answer(&mut self, asked: &str, wanted: &str) -> Result<String, RowError> {
        let alloc = self.alloc;
        let (verb, rest) = first_word(asked);
        match verb {
            "sample" => self.board.sample(alloc, rest),
            "ahead" => self.board.ahead(alloc, rest),
            "access" => self.board.access(alloc, rest),
            "begins" => self.board.begins(alloc),
            "halted" => self.board.halted(alloc),
            "register" => self.board.register(alloc, rest),
            "ram" => self.board.ram(alloc, rest),
            "state" => self.board.state(alloc, rest),
            "same" => self.board.same(alloc, rest),
            "return" => self.board.go_back(alloc, rest),
            "read" => self.board.read(alloc, rest),
            _ => answer_of(alloc, &self.regs, asked, wanted),
        }
    }
}

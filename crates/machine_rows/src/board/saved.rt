// The bytes of saved states that keep the board, and buffers of pre-rendered lines.
use crate::board::fixture::{Board, empty};
use bus_shared::{FULL_SIZE, Shared};
use md_word::Unspell;
use row_lines::{Answer, RowError, arguments};
use std::alloc::Global;
use vdp_ahead::LineBuffer;

impl Board {
    pub(crate) fn obey_saved(
        &mut self,
        alloc: Global,
        verb: &str,
        rest: &str,
        answer: &mut Answer,
    ) -> Result<(), RowError> {
        match verb {
            "save" => self.save(alloc, rest),
            "load" => self.load(alloc, rest, answer),
            "sheet" => self.begin_line_buffer(alloc, rest),
            "lift" => self.lift(rest, answer),
            "lay" => self.lay(rest),
            "used" => self.tell_used(rest, answer),
            _ => self.buffer.obey(alloc, verb, rest, answer),
        }
    }

    /// Replaces the bytes by those of a state at a cycle that keep the board.
    fn save(&mut self, alloc: Global, rest: &str) -> Result<(), RowError> {
        let at = arguments(rest, "d")?[0];
        let mut bytes = Vec::with_capacity(alloc, FULL_SIZE)?;
        self.shared.spell(u64::from(at), &mut bytes);
        self.buffer.take(bytes);
        Ok(())
    }

    /// Takes the board that the bytes keep in a state at a cycle: answers the offset at which they are invalid, if
    /// they are.
    fn load(&mut self, alloc: Global, rest: &str, answer: &mut Answer) -> Result<(), RowError> {
        let at = self.buffer.cycle_of(alloc, rest)?;
        let pal = self.shared.pal();
        let recording = empty(alloc)?;
        match Shared::unspell(alloc, self.buffer.bytes(), u64::from(at), recording, pal) {
            Ok(shared) => {
                self.shared = shared;
                answer.say("ok")
            }
            Err(Unspell::Rule { place }) => answer.say_number(place),
            Err(Unspell::NoMemory) => Err(RowError::Memory),
        }
    }

    /// Begins a buffer of the lines from one on and below another, and gives it to the board.
    fn begin_line_buffer(&mut self, alloc: Global, rest: &str) -> Result<(), RowError> {
        let [from, until, _, _] = arguments(rest, "dd")?;
        if from > 240 {
            return Err(RowError::NoSuchLine);
        }
        let mut line_buffer = LineBuffer::blank(alloc)?;
        self.shared
            .begin_line_buffer(&mut line_buffer, false, from, until);
        self.shared.lay_line_buffer(line_buffer);
        Ok(())
    }

    /// Takes the buffer off the board, and answers whether there was one.
    fn lift(&mut self, rest: &str, answer: &mut Answer) -> Result<(), RowError> {
        arguments(rest, "")?;
        self.line_buffer = self.shared.take_line_buffer();
        answer.say_bit(self.line_buffer.is_some())
    }

    /// Gives the buffer to the board again.
    fn lay(&mut self, rest: &str) -> Result<(), RowError> {
        arguments(rest, "")?;
        match self.line_buffer.take() {
            Some(line_buffer) => {
                self.shared.lay_line_buffer(line_buffer);
                Ok(())
            }
            None => Err(RowError::NoSuchName),
        }
    }

    /// Whether the buffer on the board is of use.
    fn tell_used(&self, rest: &str, answer: &mut Answer) -> Result<(), RowError> {
        arguments(rest, "")?;
        answer.say_bit(self.shared.line_buffer().is_some())
    }
}

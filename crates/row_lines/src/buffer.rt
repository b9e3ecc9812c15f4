use crate::answer::Answer;
use crate::kinds::arguments;
use crate::piece::{compared, pieces};
use crate::row_error::RowError;
use crate::words::first_word;
use std::alloc::Global;

/// Bytes that a row makes, as those of a saved state or of a picture, and those that it holds aside.
#[derive(Drop)]
pub struct Buffer {
    bytes: Vec<u8>,
    held: Vec<u8>,
}

/// Answers `yes` where bytes are the same, and else how they differ.
fn compare(alloc: Global, one: &[u8], other: &[u8], answer: &mut Answer) -> Result<(), RowError> {
    answer.say(compared(alloc, one, other, "yes")?.as_str())
}

impl Buffer {
    pub fn new(alloc: Global) -> Buffer {
        Buffer {
            bytes: Vec::new(alloc),
            held: Vec::new(alloc),
        }
    }

    /// Lets all bytes go.
    pub fn clear(&mut self) {
        self.bytes.clear();
        self.held.clear();
    }

    pub fn bytes(&self) -> &[u8] {
        self.bytes.as_slice()
    }

    /// Takes other bytes in place of its own.
    pub fn take(&mut self, bytes: Vec<u8>) {
        self.bytes = bytes;
    }

    /// Copies bytes in place of its own. It fails where there is no memory for it.
    pub fn copy(&mut self, bytes: &[u8]) -> Result<(), RowError> {
        self.bytes.clear();
        Ok(self.bytes.extend_from_slice(bytes)?)
    }

    /// Copies bytes after its own. It fails where there is no memory for it.
    pub fn append(&mut self, bytes: &[u8]) -> Result<(), RowError> {
        Ok(self.bytes.extend_from_slice(bytes)?)
    }

    fn hold(&mut self, rest: &str) -> Result<(), RowError> {
        arguments(rest, "")?;
        self.held.clear();
        Ok(self.held.extend_from_slice(self.bytes.as_slice())?)
    }

    fn tell_length(&self, rest: &str, answer: &mut Answer) -> Result<(), RowError> {
        arguments(rest, "")?;
        answer.say_number(self.bytes.len() as u64)
    }

    fn compare_held(&self, alloc: Global, rest: &str, answer: &mut Answer) -> Result<(), RowError> {
        arguments(rest, "")?;
        compare(alloc, &self.bytes, &self.held, answer)
    }

    /// Writes out so many bytes from an offset on, of those that are there.
    fn tell(&self, rest: &str, answer: &mut Answer) -> Result<(), RowError> {
        let [place, count, _, _] = arguments(rest, "dd")?;
        let following = self.bytes.get(place as usize..).unwrap_or(&[]);
        answer.say_bytes(following.get(..count as usize).unwrap_or(following))
    }

    /// Makes bytes of 0 but for changes.
    fn make(&mut self, alloc: Global, rest: &str) -> Result<(), RowError> {
        self.bytes = pieces(alloc, rest)?;
        Ok(())
    }

    /// The cycle of a state, whose bytes are made of what follows it, if anything does.
    /// `NoSuchLine` where the text is none.
    pub fn cycle_of(&mut self, alloc: Global, rest: &str) -> Result<u32, RowError> {
        let (cycle, bytes) = first_word(rest);
        if !bytes.is_empty() {
            self.make(alloc, bytes)?;
        }
        Ok(arguments(cycle, "d")?[0])
    }

    /// Compares the bytes with such bytes.
    fn compare_made(&self, alloc: Global, rest: &str, answer: &mut Answer) -> Result<(), RowError> {
        let other = pieces(alloc, rest)?;
        compare(alloc, &self.bytes, &other, answer)
    }

    /// Carries out a line about the bytes: `zeros LENGTH PLACE:BYTES..` makes bytes of 0 but for changes, `hold`
    /// holds a copy aside; `length` answers how many there are, `bytes PLACE COUNT` some of them, `held` whether they
    /// are those that are held, and `same LENGTH PLACE:BYTES..` whether they are 0 but for changes.
    /// `NoSuchLine` for another line.
    pub fn obey(
        &mut self,
        alloc: Global,
        verb: &str,
        rest: &str,
        answer: &mut Answer,
    ) -> Result<(), RowError> {
        match verb {
            "zeros" => self.make(alloc, rest),
            "hold" => self.hold(rest),
            "length" => self.tell_length(rest, answer),
            "bytes" => self.tell(rest, answer),
            "held" => self.compare_held(alloc, rest, answer),
            "same" => self.compare_made(alloc, rest, answer),
            _ => Err(RowError::NoSuchLine),
        }
    }
}

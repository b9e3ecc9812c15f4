use crate::row_error::RowError;
use std::alloc::Global;

/// The answer to a question as it is put together: words that single spaces part.
#[derive(Drop)]
pub struct Answer {
    text: String,
}

impl Answer {
    pub fn new(alloc: Global) -> Answer {
        Answer {
            text: String::new(alloc),
        }
    }

    /// Takes all words back.
    pub fn clear(&mut self) {
        self.text.clear();
    }

    /// The answer; `NoSuchLine` where nothing was asked.
    pub fn finish(self) -> Result<String, RowError> {
        if self.text.is_empty() {
            return Err(RowError::NoSuchLine);
        }
        Ok(self.text)
    }

    /// Begins a word.
    fn space(&mut self) -> Result<(), RowError> {
        if !self.text.is_empty() {
            self.text.push(' ')?;
        }
        Ok(())
    }

    /// Adds a word. As the calls that follow it fails where there is no memory for it.
    pub fn say(&mut self, word: &str) -> Result<(), RowError> {
        self.space()?;
        Ok(self.text.push_str(word)?)
    }

    /// Adds a number in decimal.
    pub fn say_number(&mut self, value: u64) -> Result<(), RowError> {
        self.space()?;
        Ok(write!(self.text, "{value}")?)
    }

    /// Adds 0 or 1.
    pub fn say_bit(&mut self, value: bool) -> Result<(), RowError> {
        self.say(if value { "1" } else { "0" })
    }

    /// Adds a number in hexadecimal, of four digits or more.
    pub fn say_word(&mut self, value: u32) -> Result<(), RowError> {
        self.space()?;
        Ok(write!(self.text, "{value:04X}")?)
    }

    /// Adds bytes of two hexadecimal digits each, as one word.
    pub fn say_bytes(&mut self, bytes: &[u8]) -> Result<(), RowError> {
        self.space()?;
        for byte in bytes {
            write!(self.text, "{byte:02X}")?;
        }
        Ok(())
    }
}

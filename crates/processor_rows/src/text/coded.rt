use asm_m68k::words_of;
use asm_z80::bytes_of;
use md_asm_text::{Token, split};
use md_disasm::{text68, text80};
use row_lines::{RowError, long, parted, word};
use std::alloc::{AllocError, Global};

/// An instruction of either processor at an address: its words, or its bytes, and how many of them are given.
#[derive(Clone, Copy)]
pub struct Coded {
    pub is_z80: bool,
    pub at: u32,
    values: [u16; 5],
    count: usize,
}

/// The Z80's bytes.
fn low_bytes(values: [u16; 5]) -> [u8; 4] {
    let [a, b, c, d, _] = values.map(|value| (value % 0x100) as u8);
    [a, b, c, d]
}

/// `PROCESSOR ADDRESS`, and what follows it. It fails where there is none.
pub fn begun(rest: &str) -> Result<(Coded, &str), RowError> {
    let (processor, rest) = parted(rest, ' ')?;
    let (at, following) = parted(rest, ' ')?;
    let is_z80 = match processor {
        "68000" => false,
        "Z80" => true,
        _ => return Err(RowError::NoSuchLine),
    };
    let coded = Coded {
        is_z80,
        at: long(at)?,
        values: [if is_z80 { 0xaa } else { 0 }; 5],
        count: 0,
    };
    Ok((coded, following))
}

impl Coded {
    /// The same with these words or bytes.
    pub fn with(self, values: [u16; 5]) -> Coded {
        Coded { values, ..self }
    }

    /// Takes words or bytes of a text.
    fn take(&mut self, text: &str) -> Result<(), RowError> {
        for token in text.split_whitespace() {
            self.add(word(token)?)?;
        }
        Ok(())
    }

    /// The greatest of its words or bytes.
    pub fn most(&self) -> u16 {
        if self.is_z80 { 0xff } else { 0xffff }
    }

    fn add(&mut self, value: u16) -> Result<(), RowError> {
        let most = self.most();
        match self.values.get_mut(self.count) {
            Some(place) if value <= most => {
                *place = value;
                self.count = self.count.wrapping_add(1);
                Ok(())
            }
            _ => Err(RowError::NoSuchLine),
        }
    }

    /// Its text. It fails where memory runs out.
    pub fn text(&self, alloc: Global) -> Result<String, AllocError> {
        if self.is_z80 {
            let decoded = z80_decode::decode(&low_bytes(self.values));
            text80(alloc, &decoded, (self.at % 0x1_0000) as u16)
        } else {
            text68(alloc, &m68k_decode::decode(&self.values), self.at)
        }
    }

    /// Its length in bytes.
    pub fn length(&self) -> usize {
        if self.is_z80 {
            usize::from(z80_decode::decode(&low_bytes(self.values)).length)
        } else {
            usize::from(m68k_decode::decode(&self.values).length)
        }
    }

    /// Appends its bytes. It fails where memory runs out.
    pub fn put_bytes(&self, to: &mut Vec<u8>) -> Result<(), AllocError> {
        let end = to.len().wrapping_add(self.length());
        for value in self.values {
            let [high, low] = value.to_be_bytes();
            if !self.is_z80 {
                to.push(high)?;
            }
            to.push(low)?;
        }
        to.truncate(end);
        Ok(())
    }

    /// The instruction that a text is read as at its address, with 0 after it, or `None` where it is no instruction. It
    /// fails where memory runs out.
    pub fn read(&self, alloc: Global, text: &str) -> Result<Option<Coded>, AllocError> {
        let tokens = split(alloc, text.as_bytes())?;
        self.read_tokens(alloc, &tokens)
    }

    fn read_tokens(
        &self,
        alloc: Global,
        tokens: &[Token<'_>],
    ) -> Result<Option<Coded>, AllocError> {
        if self.is_z80 {
            match bytes_of(alloc, tokens, (self.at % 0x1_0000) as u16)? {
                Some(bytes) => Ok(Some(self.of_bytes(bytes.as_slice()))),
                None => Ok(None),
            }
        } else {
            match words_of(alloc, tokens, self.at)? {
                Some(words) => Ok(Some(self.of_words(words.as_slice()))),
                None => Ok(None),
            }
        }
    }

    fn of_words(&self, words: &[u16]) -> Coded {
        let mut values = [0; 5];
        for (place, word) in values.iter_mut().zip(words) {
            *place = *word;
        }
        let count = words.len();
        Coded {
            values,
            count,
            ..*self
        }
    }

    fn of_bytes(&self, bytes: &[u8]) -> Coded {
        let mut values = [0; 5];
        for (place, byte) in values.iter_mut().zip(bytes) {
            *place = u16::from(*byte);
        }
        let count = bytes.len();
        Coded {
            values,
            count,
            ..*self
        }
    }

    /// Whether its text is read as what has the same text; what is no instruction is not read. It fails where memory runs
    /// out.
    pub fn is_read_back(&self, alloc: Global) -> Result<bool, AllocError> {
        let text = self.text(alloc)?;
        match self.read(alloc, text.as_str())? {
            Some(found) => Ok(found.text(alloc)?.as_str() == text.as_str()),
            None => Ok(text.as_str().starts_with("dc.w ") || text.as_str().starts_with("db ")),
        }
    }

    /// Appends the words or bytes that are given.
    fn put_values(&self, text: &mut String) -> Result<(), AllocError> {
        for value in self.values.iter().take(self.count) {
            self.put_value(text, *value)?;
        }
        Ok(())
    }

    fn put_value(&self, text: &mut String, value: u16) -> Result<(), AllocError> {
        if self.is_z80 {
            write!(text, " {value:02X}")
        } else {
            write!(text, " {value:04X}")
        }
    }

    /// The words or bytes that a text is read as, or `none`.
    fn read_values(&self, alloc: Global, text: &str) -> Result<String, AllocError> {
        let mut values = String::new(alloc);
        match self.read(alloc, text)? {
            Some(found) => found.put_values(&mut values)?,
            None => values.push_str("none")?,
        }
        String::from_str(alloc, values.as_str().trim_start())
    }

    /// Its text, and its length where it is not what is given.
    fn text_with_length(&self, alloc: Global) -> Result<String, AllocError> {
        let text = self.text(alloc)?;
        let length = self.length();
        let size = if self.is_z80 { 1 } else { 2 };
        if length == self.count.wrapping_mul(size) {
            Ok(text)
        } else {
            format!(in alloc; "{}, of {length} bytes", text.as_str())
        }
    }
}

/// `disassemble PROCESSOR ADDRESS VALUES`. It fails where the question has another form, or where memory runs out.
pub fn disassembled(alloc: Global, rest: &str) -> Result<String, RowError> {
    let (mut coded, values) = begun(rest)?;
    coded.take(values)?;
    Ok(coded.text_with_length(alloc)?)
}

/// `assemble PROCESSOR ADDRESS TEXT`. It fails where the question has another form, or where memory runs out.
pub fn encoded(alloc: Global, rest: &str) -> Result<String, RowError> {
    let (coded, text) = begun(rest)?;
    Ok(coded.read_values(alloc, text)?)
}

/// `PROCESSOR ADDRESS VALUES`: their text, where the text that is wanted is read as these. It fails where the question has
/// another form, or where memory runs out.
pub fn both(alloc: Global, asked: &str, wanted: &str) -> Result<String, RowError> {
    let (mut coded, values) = begun(asked)?;
    let read = coded.read_values(alloc, wanted)?;
    if read.as_str() == values {
        coded.take(values)?;
        Ok(coded.text_with_length(alloc)?)
    } else {
        Ok(format!(in alloc; "read as {}", read.as_str())?)
    }
}

use crate::numbers::{hexadecimal, number};
use crate::row_error::RowError;

/// The highest number of a kind.
fn most_of(kind: u8) -> u32 {
    match kind {
        b'b' => 1,
        b'h' => 0xff,
        b'w' => 0xffff,
        _ => 0xffff_ffff,
    }
}

fn argument(text: &str, kind: u8) -> Result<u32, RowError> {
    let value = match kind {
        b'b' | b'd' => number(text)?,
        _ => hexadecimal(text)?,
    };
    match u32::try_from(value) {
        Ok(value) if value <= most_of(kind) => Ok(value),
        _ => Err(RowError::NoSuchLine),
    }
}

/// The numbers of a text, at most four, each of a kind: `b` 0 or 1, `d` a number of 32 bits in decimal, and in
/// hexadecimal `h` one of 8 bits, `w` one of 16 and `l` one of 32. `NoSuchLine` where the text has others, more or
/// fewer.
pub fn arguments(text: &str, kinds: &str) -> Result<[u32; 4], RowError> {
    let mut found = [0; 4];
    let mut words = text.split_whitespace();
    for (place, kind) in kinds.bytes().enumerate() {
        let Some(word) = words.next() else {
            return Err(RowError::NoSuchLine);
        };
        found[place % 4] = argument(word, kind)?;
    }
    match words.next() {
        None => Ok(found),
        Some(_) => Err(RowError::NoSuchLine),
    }
}

use crate::numbers::{bytes, number, readable};
use crate::piece::compared;
use crate::row_error::RowError;
use std::alloc::{AllocError, Global};

/// A number that places something in a list; `NoSuchLine` where the text is none.
pub fn place_of(text: &str) -> Result<usize, RowError> {
    readable(usize::try_from(number(text)?))
}

/// Appends an item to those of a list. It fails where there is no memory for it.
pub fn push<T: Drop>(list: &mut Vec<T>, item: T) -> Result<(), AllocError> {
    Ok(list.push(item)?)
}

/// Adds `BYTES`, or `N*BYTES` so many times.
fn add(alloc: Global, into: &mut Vec<u8>, word: &str) -> Result<(), RowError> {
    let (times, digits) = word.split_once('*').unwrap_or(("1", word));
    let values = bytes(alloc, digits)?;
    for _time in 0..place_of(times)? {
        into.extend_from_slice(&values)?;
    }
    Ok(())
}

/// The bytes of words that blanks part, each `BYTES` or `N*BYTES`; `NoSuchLine` where one is neither.
pub fn repeats(alloc: Global, text: &str) -> Result<Vec<u8>, RowError> {
    let mut built = Vec::new(alloc);
    for word in text.split_whitespace() {
        add(alloc, &mut built, word)?;
    }
    Ok(built)
}

/// What is wanted where bytes are those of its words; else the first place at which they are not.
/// `NoSuchLine` where the words are none.
pub fn repeated(alloc: Global, came: &[u8], wanted: &str) -> Result<String, RowError> {
    compared(alloc, came, &repeats(alloc, wanted)?, wanted)
}

use crate::row_error::RowError;
use std::alloc::Global;

/// What was read of a text; `NoSuchLine` where that failed.
pub fn readable<T, E: Drop>(read: Result<T, E>) -> Result<T, RowError> {
    match read {
        Ok(value) => Ok(value),
        Err(_) => Err(RowError::NoSuchLine),
    }
}

/// A number in decimal or, after `0x`, in hexadecimal; `NoSuchLine` where the text is none below 2^64.
pub fn number(text: &str) -> Result<u64, RowError> {
    let read = match text.strip_prefix("0x") {
        Some(digits) => u64::from_str_radix(digits, 16),
        None => text.parse::<u64>(),
    };
    readable(read)
}

/// A number in hexadecimal; `NoSuchLine` where the text is none below 2^64.
pub fn hexadecimal(text: &str) -> Result<u64, RowError> {
    readable(u64::from_str_radix(text, 16))
}

/// A number of 8 bits in hexadecimal; `NoSuchLine` where the text is none.
pub fn byte(text: &str) -> Result<u8, RowError> {
    readable(u8::from_str_radix(text, 16))
}

/// A number of 16 bits in hexadecimal; `NoSuchLine` where the text is none.
pub fn word(text: &str) -> Result<u16, RowError> {
    readable(u16::from_str_radix(text, 16))
}

/// A number of 32 bits in hexadecimal; `NoSuchLine` where the text is none.
pub fn long(text: &str) -> Result<u32, RowError> {
    readable(u32::from_str_radix(text, 16))
}

/// Bytes of two hexadecimal digits each; `NoSuchLine` where the text is none.
pub fn bytes(alloc: Global, text: &str) -> Result<Vec<u8>, RowError> {
    match hex::decode(alloc, text) {
        Ok(bytes) => Ok(bytes),
        Err(_) => Err(RowError::NoSuchLine),
    }
}

// Answers that are a text or a number.
use crate::row_error::RowError;
use std::alloc::Global;

/// A text. As the calls below it fails where there is no memory for it.
pub fn text_of(alloc: Global, text: &str) -> Result<String, RowError> {
    Ok(String::from_str(alloc, text)?)
}

/// A number in decimal, behind a text.
pub fn decimal_of(alloc: Global, front: &str, value: u64) -> Result<String, RowError> {
    Ok(format!(in alloc; "{front}{value}")?)
}

/// A number of 32 bits in hexadecimal, of eight digits, behind a text.
pub fn long_of(alloc: Global, front: &str, value: u32) -> Result<String, RowError> {
    Ok(format!(in alloc; "{front}{value:08X}")?)
}

/// Bytes of two hexadecimal digits each.
pub fn digits_of(alloc: Global, bytes: &[u8]) -> Result<String, RowError> {
    Ok(hex::encode_upper(alloc, bytes)?)
}

/// Adds bytes to others. It fails where there is no memory for them.
pub fn append(to: &mut Vec<u8>, bytes: &[u8]) -> Result<(), RowError> {
    Ok(to.extend_from_slice(bytes)?)
}

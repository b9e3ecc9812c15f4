use row_lines::{RowError, bytes, number, parted, put_bytes};
use std::alloc::Global;

/// A place and a length in decimal, in a text.
pub fn range_of(text: &str) -> Result<(usize, usize), RowError> {
    let (from, count) = parted(text, ' ')?;
    let from = number(from)? % 0x1_0000_0000;
    let count = number(count)? % 0x1_0000_0000;
    Ok((from as usize, count as usize))
}

/// Carries out changes of bytes: `PLACE:BYTES` puts bytes at a place, and `length:N` cuts or fills with 0.
pub fn change(alloc: Global, to: &mut Vec<u8>, changes: &str) -> Result<(), RowError> {
    for part in changes.split_whitespace() {
        change_one(alloc, to, part)?;
    }
    Ok(())
}

fn change_one(alloc: Global, to: &mut Vec<u8>, part: &str) -> Result<(), RowError> {
    let (place, values) = parted(part, ':')?;
    if place == "length" {
        return resize(to, values);
    }
    put_text(alloc, to.as_mut_slice(), place, values)
}

fn resize(to: &mut Vec<u8>, length: &str) -> Result<(), RowError> {
    let length = number(length)? % 0x10_0000;
    Ok(to.resize(length as usize, 0)?)
}

fn put_text(alloc: Global, to: &mut [u8], place: &str, values: &str) -> Result<(), RowError> {
    let place = number(place)? % 0x10_0000;
    put_bytes(to, place as usize, &bytes(alloc, values)?)
}

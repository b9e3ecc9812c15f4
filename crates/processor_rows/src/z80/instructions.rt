// What bytes decode to.
use md_disasm::text80;
use row_lines::{RowError, byte, decimal_of, long, parted};
use std::alloc::Global;
use z80_decode::decode;

/// The text of the instruction that these bytes begin with, at 0100h, after its length.
fn reported(alloc: Global, bytes: &[u8; 4]) -> Result<String, RowError> {
    let decoded = decode(bytes);
    let Ok(text) = text80(alloc, &decoded, 0x100) else {
        return Err(RowError::Memory);
    };
    Ok(format!(in alloc; "{} {}", decoded.length, text.as_str())?)
}

/// The length and the text of an instruction; `NoSuchLine` where the digits are not eight.
pub fn instruction(alloc: Global, digits: &str) -> Result<String, RowError> {
    reported(alloc, &long(digits)?.to_be_bytes())
}

fn begins(alloc: Global, bytes: &[u8; 4], front: &str) -> Result<bool, RowError> {
    Ok(reported(alloc, bytes)?.as_str().starts_with(front))
}

/// For how many of the 256 opcodes after a prefix the text begins with these words.
/// `NoSuchLine` where no prefix is given.
pub fn count(alloc: Global, words: &str) -> Result<String, RowError> {
    let (prefix, front) = parted(words, ' ')?;
    let prefix = byte(prefix)?;
    let mut count = 0u64;
    for opcode in 0..=255u8 {
        if begins(alloc, &[prefix, opcode, 0, 0], front)? {
            count = count.wrapping_add(1);
        }
    }
    decimal_of(alloc, "", count)
}

use md_asm::{AsmFault, assemble};
use row_lines::{RowError, digits_of, hexadecimal, number, part_of, parted};
use std::alloc::{AllocError, Global};

/// The byte of a letter after a backslash.
fn escaped(letter: u8) -> u8 {
    match letter {
        b'n' => b'\n',
        b't' => b'\t',
        b'r' => b'\r',
        _ => letter,
    }
}

/// A source of one line, in which `\n`, `\t` and `\r` are the ends of lines, tabs and carriage returns.
fn source_of(alloc: Global, text: &str) -> Result<Vec<u8>, AllocError> {
    let mut source = Vec::new(alloc);
    let mut is_escape = false;
    for byte in text.as_bytes() {
        if is_escape {
            source.push(escaped(*byte))?;
            is_escape = false;
        } else if *byte == b'\\' {
            is_escape = true;
        } else {
            source.push(*byte)?;
        }
    }
    Ok(source)
}

/// Appends the image of a source: `None`, or the line at fault and the kind. It fails where the source is longer than
/// 1,048,576 bytes, or where memory runs out.
pub fn assembled_bytes(
    alloc: Global,
    source: &[u8],
    image: &mut Vec<u8>,
) -> Result<Option<(u32, u8)>, RowError> {
    if source.len() > 1_048_576 {
        return Err(RowError::NoSuchLine);
    }
    match assemble(alloc, source) {
        Ok(done) => {
            image.extend_from_slice(done.image())?;
            Ok(None)
        }
        Err(AsmFault::Line { line, kind }) => Ok(Some((line, kind))),
        Err(AsmFault::NoMemory) => Err(RowError::Memory),
    }
}

/// The same of a source of one line: `None`, or the line at fault and the kind. It fails likewise.
pub fn assembled(
    alloc: Global,
    text: &str,
    image: &mut Vec<u8>,
) -> Result<Option<(u32, u8)>, RowError> {
    let source = source_of(alloc, text)?;
    assembled_bytes(alloc, source.as_slice(), image)
}

/// A fault in words. It fails where memory runs out.
pub fn fault_of(alloc: Global, fault: (u32, u8)) -> Result<String, RowError> {
    let (line, kind) = fault;
    Ok(format!(in alloc; "line {line}, kind {kind}")?)
}

/// `PLACE COUNT`: bytes of an image. It fails where it does not have them, or where memory runs out.
pub fn token(alloc: Global, image: &[u8], rest: &str) -> Result<String, RowError> {
    let (place, count) = parted(rest, ' ')?;
    let place = hexadecimal(place)? % 0x1_0000_0000;
    let count = number(count)? % 0x1_0000_0000;
    digits_of(alloc, part_of(image, place as usize, count as usize)?)
}

use rom_header::Cart;
use row_lines::{RowError, bytes, hexadecimal, parted, readable};
use std::alloc::{AllocError, Global};
use std::sync::Arc;

/// Writes bytes at an offset of an image of 512 bytes.
pub(crate) fn put(image: &mut Vec<u8>, place: usize, piece: &[u8]) -> Result<(), RowError> {
    let mut at = place;
    for byte in piece {
        if at >= image.len() {
            return Err(RowError::NoSuchLine);
        }
        image[at] = *byte;
        at += 1;
    }
    Ok(())
}

/// Writes bytes at the offset that a text says, `OFFSET BYTES`, both in hexadecimal; answers the offset.
pub(crate) fn put_text(alloc: Global, image: &mut Vec<u8>, text: &str) -> Result<usize, RowError> {
    let (place, piece) = parted(text, ' ')?;
    let place = readable(usize::try_from(hexadecimal(place)?))?;
    put(image, place, &bytes(alloc, piece)?)?;
    Ok(place)
}

/// An image of 512 bytes that is all zero but for the stack pointer FFF000h and the start in its vectors, the magic, and
/// a program at its start.
pub(crate) fn image_of(alloc: Global, text: &str) -> Result<Vec<u8>, RowError> {
    let mut image = vec![in alloc; 0; 512]?;
    let start = put_text(alloc, &mut image, text)?;
    put(&mut image, 1, &[0xff, 0xf0])?;
    put(
        &mut image,
        6,
        &[(start / 256 % 256) as u8, (start % 256) as u8],
    )?;
    put(&mut image, 0x100, b"SEGA")?;
    Ok(image)
}

/// A value that several hold.
pub(crate) fn shared<T: Drop>(alloc: Global, value: T) -> Result<Arc<T>, AllocError> {
    Ok(Arc::new(alloc, value)?)
}

/// The cartridge of an image.
pub(crate) fn cartridge(alloc: Global, image: &[u8]) -> Result<Arc<Cart>, RowError> {
    match Cart::accept(alloc, image.to_vec(alloc)?) {
        Ok(cart) => Ok(shared(alloc, cart)?),
        Err(_) => Err(RowError::NoSuchName),
    }
}

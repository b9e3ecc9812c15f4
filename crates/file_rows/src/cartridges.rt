// Cartridges and pictures.
use crate::fixture::reported;
use md_demo::demo_cart;
use md_files::{ppm_head, put_frame};
use rom_header::{Cart, CartFault};
use row_lines::{RowError, number, repeated};
use sha2::{Digest, Sha256};
use std::alloc::Global;

/// Why a file is no cartridge.
fn fault_text(fault: CartFault) -> &'static str {
    match fault {
        CartFault::Short => "too short",
        CartFault::Long => "too long",
        CartFault::NoMark => "no mark",
        CartFault::NoMemory => "out of memory",
    }
}

/// The cartridge of a file that is one.
fn cart_of(alloc: Global, file: &[u8]) -> Result<Cart, RowError> {
    match Cart::accept(alloc, file.to_vec(alloc)?) {
        Ok(cart) => Ok(cart),
        Err(_) => Err(RowError::NoSuchName),
    }
}

/// Whether a file is a cartridge, `yes`, or why it is none.
pub(crate) fn accept(alloc: Global, file: &[u8]) -> Result<String, RowError> {
    match Cart::accept(alloc, file.to_vec(alloc)?) {
        Ok(_) => reported(alloc, "yes"),
        Err(fault) => reported(alloc, fault_text(fault)),
    }
}

/// Whether the image of a file is the `file`, or `file 00`.
pub(crate) fn image(alloc: Global, file: &[u8]) -> Result<String, RowError> {
    let cart = cart_of(alloc, file)?;
    let image = cart.bytes();
    let is_begun = image.get(..file.len()) == Some(file);
    match image.get(file.len()..) {
        Some([]) if is_begun => reported(alloc, "file"),
        Some([0]) if is_begun => reported(alloc, "file 00"),
        _ => reported(alloc, "other"),
    }
}

/// A text whose lines end in `|`, with a character for each full stop.
pub(crate) fn in_one_line(alloc: Global, text: &[u8], stop: char) -> Result<String, RowError> {
    let mut line = String::new(alloc);
    for byte in text {
        line.push(match *byte {
            b'\n' => '|',
            b'|' => '?',
            b'.' => stop,
            byte => char::from(byte),
        })?;
    }
    Ok(line)
}

/// The lines of a cartridge's header, with `_` for each full stop.
pub(crate) fn header(alloc: Global, file: &[u8]) -> Result<String, RowError> {
    let cart = cart_of(alloc, file)?;
    let lines = cart.info(alloc)?;
    in_one_line(alloc, &lines, '_')
}

/// The SHA-256 of the demonstration cartridge of a number.
pub(crate) fn demo(alloc: Global, text: &str) -> Result<String, RowError> {
    match demo_cart(alloc, number(text)?) {
        Ok(bytes) => {
            let digest: [u8; 32] = Sha256::digest(bytes.as_slice());
            Ok(hex::encode_upper(alloc, digest.as_slice())?)
        }
        Err(_) => Err(RowError::Memory),
    }
}

/// The file of a picture of 224 rows whose dots are those of the row's file.
pub(crate) fn picture(alloc: Global, dots: &[u8], wanted: &str) -> Result<String, RowError> {
    let mut file = Vec::with_capacity(alloc, 215_055)?;
    if dots.len() != 215_040 {
        return Err(RowError::NoSuchLine);
    }
    ppm_head(false, &mut file);
    put_frame(dots, &mut file);
    repeated(alloc, &file, wanted)
}

// A file as a line writes it: parts, of which each is added to what those before it made, or changes that.
use crate::store::Store;
use md_demo::demo_cart;
use md_outer::{Depot, FileDepot};
use rand_core::utils::NextWord;
use rand_pcg::Lcg64Xsh32;
use row_lines::{RowError, append, bytes, number, parted, place_of, put_bytes, rest_of};
use sha2::{Digest, Sha256};
use std::alloc::{AllocError, Global};
use std::rt::Files;

/// The most bytes of a file of the folder.
const MOST: u64 = 1 << 24;

/// What a file holds.
pub fn file<'a>(store: &'a Store, name: &str) -> Result<&'a [u8], RowError> {
    store.file(name).ok_or(RowError::NoSuchName)
}

/// Writes over what stands at a place.
fn write_at(made: &mut [u8], at: &str, over: &[u8]) -> Result<(), RowError> {
    put_bytes(made, place_of(at)?, over)
}

/// `at:PLACE:BYTES` writes over what stands at a place.
fn overwrite(alloc: Global, made: &mut [u8], text: &str) -> Result<(), RowError> {
    let (at, over) = parted(text, ':')?;
    write_at(made, at, &bytes(alloc, over)?)
}

/// `over:PLACE:FILE` does so with what a file holds.
fn overwrite_by(made: &mut [u8], store: &Store, text: &str) -> Result<(), RowError> {
    let (at, name) = parted(text, ':')?;
    write_at(made, at, file(store, name)?)
}

/// Adds bytes in hexadecimal.
fn add_bytes(alloc: Global, made: &mut Vec<u8>, text: &str) -> Result<(), RowError> {
    append(made, &bytes(alloc, text)?)
}

fn add_again(made: &mut Vec<u8>, piece: &[u8], times: usize) -> Result<(), RowError> {
    for _time in 0..times {
        append(made, piece)?;
    }
    Ok(())
}

/// Adds `N:BYTES`, bytes N times.
fn add_times(alloc: Global, made: &mut Vec<u8>, text: &str) -> Result<(), RowError> {
    let (times, piece) = parted(text, ':')?;
    add_again(made, &bytes(alloc, piece)?, place_of(times)?)
}

/// Adds what a text stands for: `|` is the end of a line, and `~` the byte FFh.
fn add_text(made: &mut Vec<u8>, text: &str) -> Result<(), AllocError> {
    for byte in text.bytes() {
        made.push(match byte {
            b'|' => b'\n',
            b'~' => 0xff,
            byte => byte,
        })?;
    }
    Ok(())
}

/// What stands in a file from a place on.
pub fn file_from<'a>(store: &'a Store, name: &str, from: &str) -> Result<&'a [u8], RowError> {
    rest_of(file(store, name)?, place_of(from)?)
}

/// Adds `PLACE:FILE`, what stands in a file from a place on.
fn add_from(made: &mut Vec<u8>, store: &Store, text: &str) -> Result<(), RowError> {
    let (from, name) = parted(text, ':')?;
    append(made, file_from(store, name, from)?)
}

fn add_copy(made: &mut Vec<u8>, store: &Store, name: &str) -> Result<(), RowError> {
    append(made, file(store, name)?)
}

fn add_digest(made: &mut Vec<u8>, store: &Store, name: &str) -> Result<(), RowError> {
    append(made, &Sha256::digest(file(store, name)?))
}

/// Bytes in hexadecimal.
pub fn lower_digits(alloc: Global, bytes: &[u8]) -> Result<String, RowError> {
    Ok(hex::encode(alloc, bytes)?)
}

/// The digits of a file's digest.
pub fn digits(alloc: Global, store: &Store, name: &str) -> Result<String, RowError> {
    lower_digits(alloc, &Sha256::digest(file(store, name)?))
}

fn add_digits(
    alloc: Global,
    made: &mut Vec<u8>,
    store: &Store,
    name: &str,
) -> Result<(), RowError> {
    append(made, digits(alloc, store, name)?.as_bytes())
}

/// Adds the demonstration cartridge of a number.
fn add_demo(alloc: Global, made: &mut Vec<u8>, text: &str) -> Result<(), RowError> {
    match demo_cart(alloc, number(text)?) {
        Ok(cart) => append(made, &cart),
        Err(_) => Err(RowError::Memory),
    }
}

fn add_words(made: &mut Vec<u8>, words: &mut Lcg64Xsh32, count: usize) -> Result<(), RowError> {
    for _word in 0..count {
        append(made, &words.next_word().to_be_bytes())?;
    }
    Ok(())
}

/// PCG's generator XSH RR of a state and a stream.
fn generator(state: &str, stream: &str) -> Result<Lcg64Xsh32, RowError> {
    Ok(Lcg64Xsh32::new(number(state)?, number(stream)?))
}

/// Adds `STATE:STREAM:COUNT`, so many 32-bit words of that generator, each its high byte first.
fn add_random(made: &mut Vec<u8>, text: &str) -> Result<(), RowError> {
    let (state, rest) = parted(text, ':')?;
    let (stream, count) = parted(rest, ':')?;
    add_words(made, &mut generator(state, stream)?, place_of(count)?)
}

/// Keeps of all bytes the bits of a mask, over and over.
fn keep_bits(made: &mut Vec<u8>, mask: &[u8]) {
    for (byte, bits) in made.iter_mut().zip(mask.iter().cycle()) {
        *byte &= *bits;
    }
}

/// `mask:BYTES` does so with bytes in hexadecimal.
fn mask(alloc: Global, made: &mut Vec<u8>, text: &str) -> Result<(), RowError> {
    keep_bits(made, &bytes(alloc, text)?);
    Ok(())
}

/// `pad:N` makes them N with zeros, where they are fewer.
fn pad(made: &mut Vec<u8>, text: &str) -> Result<(), RowError> {
    let length = place_of(text)?.max(made.len());
    Ok(made.resize(length, 0)?)
}

/// `cut:N` leaves the first N.
fn cut(made: &mut Vec<u8>, text: &str) -> Result<(), RowError> {
    made.truncate(place_of(text)?);
    Ok(())
}

/// A part that is made of numbers alone.
fn take_number(alloc: Global, made: &mut Vec<u8>, kind: &str, rest: &str) -> Result<(), RowError> {
    match kind {
        "hex" => add_bytes(alloc, made, rest),
        "times" => add_times(alloc, made, rest),
        "at" => overwrite(alloc, made, rest),
        "mask" => mask(alloc, made, rest),
        "demo" => add_demo(alloc, made, rest),
        "random" => add_random(made, rest),
        "pad" => pad(made, rest),
        "cut" => cut(made, rest),
        _ => Err(RowError::NoSuchLine),
    }
}

/// A part that needs no file of the folder.
fn take_part(
    alloc: Global,
    made: &mut Vec<u8>,
    store: &Store,
    kind: &str,
    rest: &str,
) -> Result<(), RowError> {
    match kind {
        "copy" => add_copy(made, store, rest),
        "from" => add_from(made, store, rest),
        "over" => overwrite_by(made, store, rest),
        "digest" => add_digest(made, store, rest),
        "digits" => add_digits(alloc, made, store, rest),
        _ => take_number(alloc, made, kind, rest),
    }
}

/// Adds a file of the folder.
fn add_data<R: Files + Drop>(
    alloc: Global,
    made: &mut Vec<u8>,
    folder: &mut FileDepot<R>,
    name: &str,
) -> Result<(), RowError> {
    match folder.fetch(alloc, name, MOST) {
        Ok(data) => append(made, &data),
        Err(_) => Err(RowError::NoSuchName),
    }
}

/// Adds a part, or changes what those before it made.
fn add_part<R: Files + Drop>(
    alloc: Global,
    made: &mut Vec<u8>,
    folder: &mut FileDepot<R>,
    store: &Store,
    part: &str,
) -> Result<(), RowError> {
    let (kind, rest) = parted(part, ':')?;
    if kind == "data" {
        return add_data(alloc, made, folder, rest);
    }
    take_part(alloc, made, store, kind, rest)
}

fn add_parts<R: Files + Drop>(
    alloc: Global,
    made: &mut Vec<u8>,
    folder: &mut FileDepot<R>,
    store: &Store,
    parts: &str,
) -> Result<(), RowError> {
    for part in parts.split_whitespace() {
        add_part(alloc, made, folder, store, part)?;
    }
    Ok(())
}

/// The bytes that parts make, one after the other; after all others may stand a text, `text:ANY`.
pub fn build<R: Files + Drop>(
    alloc: Global,
    folder: &mut FileDepot<R>,
    store: &Store,
    parts: &str,
) -> Result<Vec<u8>, RowError> {
    let mut made = Vec::new(alloc);
    let (parts, text) = parts.split_once("text:").unwrap_or((parts, ""));
    add_parts(alloc, &mut made, folder, store, parts)?;
    add_text(&mut made, text)?;
    Ok(made)
}

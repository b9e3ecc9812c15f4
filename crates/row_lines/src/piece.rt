use crate::numbers::{number, readable};
use crate::repeat::repeats;
use crate::row_error::RowError;
use crate::texts::text_of;
use crate::words::{first_word, parted};
use std::alloc::{AllocError, Global};

/// More bytes than this are none of the language.
const MOST: u64 = 0x100_0000;

/// The bytes from a place on; `NoSuchLine` where they end before it.
pub fn rest_of(bytes: &[u8], place: usize) -> Result<&[u8], RowError> {
    match bytes.get(place..) {
        Some(rest) => Ok(rest),
        None => Err(RowError::NoSuchLine),
    }
}

/// So many bytes from a place on; `NoSuchLine` where they end before that.
pub fn part_of(bytes: &[u8], place: usize, count: usize) -> Result<&[u8], RowError> {
    match rest_of(bytes, place)?.get(..count) {
        Some(part) => Ok(part),
        None => Err(RowError::NoSuchLine),
    }
}

/// Puts bytes over the first ones.
fn put_first(into: &mut [u8], values: &[u8]) -> Result<(), RowError> {
    match into.get_mut(..values.len()) {
        Some(part) => {
            part.copy_from_slice(values);
            Ok(())
        }
        None => Err(RowError::NoSuchLine),
    }
}

/// Puts bytes over those from a place on; `NoSuchLine` where there is no room.
pub fn put_bytes(into: &mut [u8], place: usize, values: &[u8]) -> Result<(), RowError> {
    match into.get_mut(place..) {
        Some(rest) => put_first(rest, values),
        None => Err(RowError::NoSuchLine),
    }
}

/// Puts `BYTES`, or `N*BYTES` so many times, over what is there from an offset on; `NoSuchLine` where the text is neither
/// or there is no room.
pub fn put(alloc: Global, into: &mut [u8], place: u64, text: &str) -> Result<(), RowError> {
    let values = repeats(alloc, text)?;
    put_bytes(into, readable(usize::try_from(place))?, &values)
}

/// Puts a piece.
fn put_piece(alloc: Global, into: &mut [u8], piece: &str) -> Result<(), RowError> {
    let (place, text) = parted(piece, ':')?;
    put(alloc, into, number(place)?, text)
}

/// The bytes `LENGTH PLACE:BYTES ..`, or with `N*BYTES` for a piece: so many, of 0 where no piece is; a later piece
/// overwrites an earlier one. `NoSuchLine` where the text is none, or the length is above 16 MiB.
pub fn pieces(alloc: Global, text: &str) -> Result<Vec<u8>, RowError> {
    let (length, places) = first_word(text);
    let length = number(length)?;
    if length > MOST {
        return Err(RowError::NoSuchLine);
    }
    let mut built = vec![in alloc; 0; length as usize]?;
    for piece in places.split_whitespace() {
        put_piece(alloc, &mut built, piece)?;
    }
    Ok(built)
}

/// How many bytes are the same before the first that differs.
fn same_ones(came: &[u8], wanted: &[u8]) -> usize {
    let mut place = 0usize;
    for (one, other) in came.iter().zip(wanted.iter()) {
        if one != other {
            break;
        }
        place = place.wrapping_add(1);
    }
    place
}

/// How bytes differ from those that are wanted.
fn difference(alloc: Global, came: &[u8], wanted: &[u8]) -> Result<String, AllocError> {
    let place = same_ones(came, wanted);
    match (came.get(place), wanted.get(place)) {
        (Some(one), Some(other)) => format!(in alloc; "{one:02X} at {place} for {other:02X}"),
        _ => format!(in alloc; "{} bytes for {}", came.len(), wanted.len()),
    }
}

/// The first place at which bytes differ from those that are wanted, or their lengths; `reported` where they do not.
/// It fails where there is no memory for the text.
pub fn compared(
    alloc: Global,
    came: &[u8],
    wanted: &[u8],
    reported: &str,
) -> Result<String, RowError> {
    if came == wanted {
        return text_of(alloc, reported);
    }
    Ok(difference(alloc, came, wanted)?)
}

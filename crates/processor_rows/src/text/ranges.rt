use crate::text::coded::{Coded, begun};
use crate::text::pattern::Pattern;
use crate::text::sources::{assembled_bytes, fault_of};
use row_lines::{RowError, decimal_of, text_of};
use std::alloc::{AllocError, Global};

/// The answer to a question that goes through a range. It fails where it is none, or where memory runs out.
pub fn ranged(alloc: Global, verb: &str, rest: &str) -> Result<String, RowError> {
    let (coded, patterns) = begun(rest)?;
    match verb {
        "distinct" => distinct(alloc, coded, patterns),
        "read-back" => read_back(alloc, coded, patterns),
        "round-trip" => round_trip(alloc, coded, patterns),
        _ => Err(RowError::NoSuchLine),
    }
}

/// How many texts there are.
fn distinct(alloc: Global, coded: Coded, patterns: &str) -> Result<String, RowError> {
    let mut texts = Vec::new(alloc);
    put_texts(alloc, &mut texts, coded, patterns)?;
    texts.sort()?;
    texts.dedup();
    decimal_of(alloc, "", texts.len() as u64)
}

fn put_texts(
    alloc: Global,
    texts: &mut Vec<String>,
    coded: Coded,
    patterns: &str,
) -> Result<(), RowError> {
    for part in patterns.split(", ") {
        let pattern = Pattern::of(part, coded.most())?;
        put_each(alloc, texts, coded, &pattern)?;
    }
    Ok(())
}

fn put_each(
    alloc: Global,
    texts: &mut Vec<String>,
    coded: Coded,
    pattern: &Pattern,
) -> Result<(), AllocError> {
    for value in pattern.first..=pattern.last {
        if pattern.has(value) {
            texts.push(coded.with(pattern.with(value)).text(alloc)?)?;
        }
    }
    Ok(())
}

/// Whether each instruction is read from its own text.
fn read_back(alloc: Global, coded: Coded, patterns: &str) -> Result<String, RowError> {
    for part in patterns.split(", ") {
        if let Some(value) = first_other(alloc, coded, &Pattern::of(part, coded.most())?)? {
            return Ok(format!(in alloc; "{part} at {value:04X}")?);
        }
    }
    text_of(alloc, "none different")
}

fn first_other(alloc: Global, coded: Coded, pattern: &Pattern) -> Result<Option<u16>, AllocError> {
    for value in pattern.first..=pattern.last {
        if pattern.has(value) && !coded.with(pattern.with(value)).is_read_back(alloc)? {
            return Ok(Some(value));
        }
    }
    Ok(None)
}

/// A source of instructions one after the other, and their bytes.
#[derive(Drop)]
struct Trip {
    source: String,
    bytes: Vec<u8>,
    next: Coded,
}

impl Trip {
    fn put(&mut self, alloc: Global, patterns: &str) -> Result<(), RowError> {
        for part in patterns.split(", ") {
            let pattern = Pattern::of(part, self.next.most())?;
            self.put_each(alloc, &pattern)?;
        }
        Ok(())
    }

    fn put_each(&mut self, alloc: Global, pattern: &Pattern) -> Result<(), AllocError> {
        for value in pattern.first..=pattern.last {
            if pattern.has(value) {
                self.next = self.next.with(pattern.with(value));
                self.put_next(alloc)?;
            }
        }
        Ok(())
    }

    fn put_next(&mut self, alloc: Global) -> Result<(), AllocError> {
        let text = self.next.text(alloc)?;
        self.source.push_str(text.as_str())?;
        self.source.push_str("\n")?;
        self.next.put_bytes(&mut self.bytes)?;
        let length = (self.next.length() % 16) as u32;
        self.next.at = self.next.at.wrapping_add(length);
        Ok(())
    }
}

/// Whether a source of the texts of instructions, each at its own address, is assembled to their bytes.
fn round_trip(alloc: Global, coded: Coded, patterns: &str) -> Result<String, RowError> {
    let source = if coded.is_z80 {
        format!(in alloc; "cpu z80 ${:x}\n", coded.at)?
    } else {
        format!(in alloc; "org ${:x}\n", coded.at)?
    };
    let mut trip = Trip {
        source,
        bytes: Vec::new(alloc),
        next: coded,
    };
    trip.put(alloc, patterns)?;
    let place = if coded.is_z80 { 0 } else { coded.at as usize };
    compare(alloc, trip.source.as_bytes(), place, trip.bytes.as_slice())
}

/// Whether a source's image ends in these bytes from a place on.
fn compare(alloc: Global, source: &[u8], place: usize, bytes: &[u8]) -> Result<String, RowError> {
    let mut image = Vec::new(alloc);
    if let Some(fault) = assembled_bytes(alloc, source, &mut image)? {
        return fault_of(alloc, fault);
    }
    let is_same = image.as_slice().get(place..) == Some(bytes);
    text_of(
        alloc,
        if is_same {
            "none different"
        } else {
            "other bytes"
        },
    )
}

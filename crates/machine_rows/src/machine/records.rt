use core_rows::record_text;
use md_word::{Entry, Key};
use row_lines::{RowError, first_word, hexadecimal, number, place_of, push};
use std::alloc::Global;

/// The entry of a record of 16 bytes.
fn entry_of(record: &[u8]) -> Option<Entry> {
    match record {
        [a, b, c, d, e, f, g, h, chip, kind, i, j, k, l, m, n] => Some(Entry {
            key: Key {
                cycle: u64::from_be_bytes([*a, *b, *c, *d, *e, *f, *g, *h]),
                chip: *chip,
            },
            kind: *kind,
            address: u32::from_be_bytes([*i, *j, *k, *l]),
            value: u16::from_be_bytes([*m, *n]),
        }),
        _ => None,
    }
}

/// The base in which a field is written.
#[derive(Clone, Copy)]
enum Base {
    Decimal,
    Hexadecimal,
}

impl Base {
    fn read(self, text: &str) -> Result<u64, RowError> {
        match self {
            Base::Decimal => number(text),
            Base::Hexadecimal => hexadecimal(text),
        }
    }
}

/// The fields of an entry, and the base in which each is written.
fn fields_of(entry: &Entry) -> [(u64, Base); 5] {
    [
        (entry.key.cycle, Base::Decimal),
        (u64::from(entry.key.chip), Base::Decimal),
        (u64::from(entry.kind), Base::Decimal),
        (u64::from(entry.address), Base::Hexadecimal),
        (u64::from(entry.value), Base::Hexadecimal),
    ]
}

/// Whether a field is as a word says: `*` any, `V` or `V|V` one of these, `!V` another.
fn is_field(value: u64, base: Base, word: &str) -> Result<bool, RowError> {
    if word == "*" {
        return Ok(true);
    }
    let (is_wanted, list) = match word.strip_prefix("!") {
        Some(list) => (false, list),
        None => (true, word),
    };
    let mut is_among = false;
    for text in list.split('|') {
        is_among |= base.read(text)? == value;
    }
    Ok(is_among == is_wanted)
}

/// Whether an entry is as the words of a pattern say, as far as they go.
fn is_like(entry: &Entry, pattern: &str) -> Result<bool, RowError> {
    let fields = fields_of(entry);
    let mut is_like = true;
    let mut place = 0usize;
    for word in pattern.split_whitespace() {
        let (value, base) = *fields.get(place).ok_or(RowError::NoSuchLine)?;
        is_like &= is_field(value, base, word)?;
        place = place.wrapping_add(1);
    }
    Ok(is_like)
}

/// The entries of records that are like a pattern.
fn find(alloc: Global, records: &[u8], pattern: &str) -> Result<Vec<Entry>, RowError> {
    let mut found = Vec::new(alloc);
    for record in records.chunks_exact(16) {
        let entry = entry_of(record).ok_or(RowError::NoSuchLine)?;
        if is_like(&entry, pattern)? {
            push(&mut found, entry)?;
        }
    }
    Ok(found)
}

/// How many records are like a pattern.
pub(crate) fn count(alloc: Global, records: &[u8], pattern: &str) -> Result<String, RowError> {
    let found = find(alloc, records, pattern)?;
    Ok(format!(in alloc; "{}", found.len())?)
}

/// The record of a number among those that are like a pattern, of `NUMBER PATTERN`.
pub(crate) fn entry(alloc: Global, records: &[u8], asked: &str) -> Result<String, RowError> {
    let (number, pattern) = first_word(asked);
    let found = find(alloc, records, pattern)?;
    match found.get(place_of(number)?) {
        Some(entry) => Ok(record_text(alloc, entry)?),
        None => Err(RowError::NoSuchName),
    }
}

/// The same without its cycle.
pub(crate) fn reported(alloc: Global, records: &[u8], asked: &str) -> Result<String, RowError> {
    let text = entry(alloc, records, asked)?;
    let (_, reported) = text.as_str().split_once(' ').ok_or(RowError::NoSuchLine)?;
    Ok(String::from_str(alloc, reported)?)
}

/// The values of the words that the 68000 has read from the data port of the VDP.
pub(crate) fn words_read(alloc: Global, records: &[u8]) -> Result<Vec<u8>, RowError> {
    let mut values = Vec::new(alloc);
    for entry in find(alloc, records, "* 0 1 C00000|C00002")?.iter() {
        values.extend_from_slice(&entry.value.to_be_bytes())?;
    }
    Ok(values)
}

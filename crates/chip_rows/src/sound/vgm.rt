// VGM files: made of journals, and played.
ghost use Rattle.std.specs.Prelude.{◌≤◌, IfOk, vec_len};

use md_files::put_entry;
use md_vgm::{VgmFault, from_journal};
use md_word::{Entry, Key};
use row_lines::{
    RowError, append, byte, decimal_of, first_word, long, number, parted, repeats, word,
};
use std::alloc::Global;

/// The longest journal or file.
const MOST: usize = 67_108_864;

/// The header of a file whose commands begin after it.
static HEAD: [u8; 64] =
    *b"Vgm \0\0\0\0\x50\x01\0\0\0\0\0\0\0\0\0\0\0\0\0\0\0\0\0\0\0\0\0\0\0\0\0\0\0\0\0\0\0\0\0\0\0\0\0\0\0\0\0\0\x0c\0\0\0\0\0\0\0\0\0\0\0";

fn key_of(cycle: &str, chip: &str) -> Result<Key, RowError> {
    Ok(Key {
        cycle: number(cycle)?,
        chip: byte(chip)?,
    })
}

/// The entry of a key and of `KIND:ADDRESS:VALUE`.
fn entry_by(key: Key, text: &str) -> Result<Entry, RowError> {
    let (kind, rest) = parted(text, ':')?;
    let (address, value) = parted(rest, ':')?;
    Ok(Entry {
        key,
        kind: byte(kind)?,
        address: long(address)?,
        value: word(value)?,
    })
}

/// The entry `CYCLE:CHIP:KIND:ADDRESS:VALUE`.
fn entry_of(text: &str) -> Result<Entry, RowError> {
    let (cycle, rest) = parted(text, ':')?;
    let (chip, rest) = parted(rest, ':')?;
    entry_by(key_of(cycle, chip)?, rest)
}

fn append_entry(alloc: Global, into: &mut Vec<u8>, text: &str) -> Result<(), RowError> {
    let entry = entry_of(text)?;
    let mut record = Vec::with_capacity(alloc, 16)?;
    put_entry(&entry, &mut record);
    append(into, &record)
}

/// Appends an entry, bytes, which may be `COUNT*BYTES`, or those of the word `head`.
fn append_word(alloc: Global, into: &mut Vec<u8>, word: &str) -> Result<(), RowError> {
    if word == "head" {
        append(into, &HEAD)
    } else if word.contains(':') {
        append_entry(alloc, into, word)
    } else {
        append(into, &repeats(alloc, word)?)
    }
}

fn append_all(alloc: Global, into: &mut Vec<u8>, words: &str) -> Result<(), RowError> {
    for word in words.split_whitespace() {
        append_word(alloc, into, word)?;
    }
    Ok(())
}

/// The bytes of entries, of bytes and of the word `head`.
fn build(alloc: Global, words: &str) -> Result<Vec<u8>, RowError>
    ensures { IfOk result (λ built. vec_len built ≤ 67108864) }
{
    let mut built = Vec::new(alloc);
    append_all(alloc, &mut built, words)?;
    if built.len() > MOST {
        return Err(RowError::NoSuchLine);
    }
    Ok(built)
}

/// Whether it is PAL.
fn is_pal(region: &str) -> Result<bool, RowError> {
    match region {
        "ntsc" => Ok(false),
        "pal" => Ok(true),
        _ => Err(RowError::NoSuchLine),
    }
}

/// The text of a fault.
fn fault(alloc: Global, fault: VgmFault) -> Result<String, RowError> {
    match fault {
        VgmFault::Form { place } => decimal_of(alloc, "form ", place),
        VgmFault::Dense { place } => decimal_of(alloc, "dense ", place),
        VgmFault::Long { place } => decimal_of(alloc, "long ", place),
        VgmFault::NoMemory => Err(RowError::Memory),
    }
}

/// A file from an offset on and up to another.
fn part(alloc: Global, file: &[u8], from: usize, to: usize) -> Result<String, RowError> {
    match file.get(from..to.min(file.len())) {
        Some(part) => Ok(hex::encode(alloc, part)?),
        None => Err(RowError::NoSuchName),
    }
}

/// The file of a journal, from an offset on and up to another.
fn made(alloc: Global, words: &str, from: usize, to: usize) -> Result<String, RowError> {
    let (region, words) = first_word(words);
    let journal = build(alloc, words)?;
    match from_journal(alloc, &journal, is_pal(region)?) {
        Ok(file) => part(alloc, &file, from, to),
        Err(error) => fault(alloc, error),
    }
}

/// The header of the file of a journal.
pub fn head(alloc: Global, words: &str) -> Result<String, RowError> {
    made(alloc, words, 0, HEAD.len())
}

/// The commands of the file of a journal.
pub fn body(alloc: Global, words: &str) -> Result<String, RowError> {
    made(alloc, words, HEAD.len(), MOST)
}

/// The length of the sound file of a VGM file.
pub fn play(alloc: Global, words: &str) -> Result<String, RowError> {
    let (region, words) = first_word(words);
    let file = build(alloc, words)?;
    match md_vgm::play(alloc, &file, is_pal(region)?) {
        Ok(sound) => decimal_of(alloc, "sound ", sound.len() as u64),
        Err(error) => fault(alloc, error),
    }
}

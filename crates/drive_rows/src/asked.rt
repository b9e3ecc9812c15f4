// What a question asks, and its answer.
use crate::words::read;
use md_outer::{FileDepot, FreeGate, MemDepot, MemSink};
use md_top::{drive, drive_one};
use row_files::{Store, build, digits, file, file_from, list_of, lower_digits};
use row_lines::{RowError, compared, decimal_of, first_word, parted, push, text_of};
use std::alloc::{AllocError, Global};
use std::rt::Files;
use std::sync::Wait;
use std::thread::Threads;

/// The most bytes of a text that is printed.
const LONGEST: u64 = 1 << 16;

/// Adds the words of a text, which single spaces part, but for the first.
fn add_words(alloc: Global, words: &mut Vec<String>, text: &str) -> Result<(), AllocError> {
    for word in text.split(' ').skip(1) {
        push(words, String::from_str(alloc, word)?)?;
    }
    Ok(())
}

/// Adds a text, in which `|` ends a line.
fn put_lines(spelled: &mut String, text: &[u8]) -> Result<(), AllocError> {
    for byte in text {
        spelled.push(match *byte {
            b'\n' => '|',
            b'|' => '?',
            byte => char::from(byte),
        })?;
    }
    Ok(())
}

/// A status and a text as an answer writes them.
fn spelled(alloc: Global, status: u8, text: &[u8]) -> Result<String, AllocError> {
    let space = if text.is_empty() { "" } else { " " };
    let mut spelled = format!(in alloc; "{status}{space}")?;
    put_lines(&mut spelled, text)?;
    Ok(spelled)
}

/// Keeps the text that words printed, and gives the answer.
fn answered(
    alloc: Global,
    store: &mut Store,
    status: u8,
    sink: &MemSink,
) -> Result<String, RowError> {
    store.out = sink.bytes().to_vec(alloc)?;
    Ok(spelled(alloc, status, sink.bytes())?)
}

/// A stream of which the print of a number may fail.
fn sink_of(alloc: Global, put: Option<u64>) -> Result<MemSink, AllocError> {
    MemSink::new(alloc, LONGEST, list_of(alloc, put)?)
}

/// What words result in by one worker.
fn by_one(alloc: Global, store: &mut Store, words: &Vec<String>) -> Result<String, RowError> {
    let mut sink = sink_of(alloc, store.failing[2])?;
    let status = drive_one(alloc, words, store.depot(alloc)?, &mut sink);
    answered(alloc, store, status, &sink)
}

/// The status of words that may start threads.
fn status_of<R: Threads + Wait + Sync>(
    rt: &R,
    alloc: Global,
    words: &Vec<String>,
    depot: &mut MemDepot,
    sink: &mut MemSink,
) -> u8 {
    drive(rt, alloc, words, depot, sink, &FreeGate)
}

/// What words that may start threads result in.
fn by_several<R: Threads + Wait + Sync>(
    rt: &R,
    alloc: Global,
    store: &mut Store,
    words: &Vec<String>,
) -> Result<String, RowError> {
    let mut sink = sink_of(alloc, store.failing[2])?;
    let status = status_of(rt, alloc, words, store.depot(alloc)?, &mut sink);
    answered(alloc, store, status, &sink)
}

/// What words result in, or what the command line reads of them.
fn ask_words<T: Threads + Wait + Sync>(
    rt: &T,
    alloc: Global,
    store: &mut Store,
    verb: &str,
    words: &Vec<String>,
) -> Result<String, RowError> {
    match verb {
        "do" => by_one(alloc, store, words),
        "drive" => by_several(rt, alloc, store, words),
        _ => read(alloc, words),
    }
}

/// The same of the words of a question.
fn ask_command<T: Threads + Wait + Sync>(
    rt: &T,
    alloc: Global,
    store: &mut Store,
    verb: &str,
    asked: &str,
) -> Result<String, RowError> {
    let mut words = Vec::new(alloc);
    add_words(alloc, &mut words, asked)?;
    ask_words(rt, alloc, store, verb, &words)
}

/// The length of a file of the row, or that there is none.
fn length(alloc: Global, store: &Store, name: &str) -> Result<String, RowError> {
    match store.own(name) {
        Some(bytes) => decimal_of(alloc, "", bytes.len() as u64),
        None => text_of(alloc, "none"),
    }
}

/// The bytes of a file from a place on; so many of them where as many are there.
fn bytes_at(alloc: Global, store: &Store, text: &str, count: usize) -> Result<String, RowError> {
    let (name, from) = parted(text, ' ')?;
    let rest = file_from(store, name, from)?;
    lower_digits(alloc, rest.get(..count).unwrap_or(rest))
}

/// The answer to whether the bytes of parts are those that are wanted, or to whether they are others.
fn alike(
    alloc: Global,
    made: &[u8],
    other: &[u8],
    verb: &str,
    wanted: &str,
) -> Result<String, RowError> {
    if verb == "same" {
        return compared(alloc, made, other, wanted);
    }
    let is_other = made != other;
    text_of(alloc, if is_other { wanted } else { "the same bytes" })
}

/// Compares bytes with those that parts make.
fn compare_with<R: Files + Drop>(
    alloc: Global,
    folder: &mut FileDepot<R>,
    store: &Store,
    made: &[u8],
    verb: &str,
    wanted: &str,
) -> Result<String, RowError> {
    let other = build(alloc, folder, store, wanted)?;
    alike(alloc, made, &other, verb, wanted)
}

/// `same` or `unlike`: whether parts make the same bytes as those that are wanted, which are the answer then, or others.
fn compare<R: Files + Drop>(
    alloc: Global,
    folder: &mut FileDepot<R>,
    store: &Store,
    verb: &str,
    parts: &str,
    wanted: &str,
) -> Result<String, RowError> {
    let made = build(alloc, folder, store, parts)?;
    compare_with(alloc, folder, store, &made, verb, wanted)
}

/// Whether a file, if there is one, is a prefix of one that is kept, whose name is the answer then.
fn prefix(alloc: Global, store: &Store, name: &str, wanted: &str) -> Result<String, RowError> {
    let front = store.own(name).unwrap_or(&[]);
    let is_prefix = file(store, wanted)?.starts_with(front);
    text_of(alloc, if is_prefix { wanted } else { "no prefix" })
}

/// The answer to a question on a file of the row.
fn ask_file(
    alloc: Global,
    store: &Store,
    verb: &str,
    rest: &str,
    wanted: &str,
) -> Result<String, RowError> {
    match verb {
        "length" => length(alloc, store, rest),
        "bytes" => bytes_at(alloc, store, rest, wanted.len() / 2),
        "end" => bytes_at(alloc, store, rest, usize::MAX),
        "sha256" => digits(alloc, store, rest),
        "prefix" => prefix(alloc, store, rest, wanted),
        _ => Err(RowError::NoSuchLine),
    }
}

/// The answer to a question, where this one is wanted.
pub(crate) fn ask<R: Files + Drop, T: Threads + Wait + Sync>(
    rt: &T,
    alloc: Global,
    folder: &mut FileDepot<R>,
    store: &mut Store,
    asked: &str,
    wanted: &str,
) -> Result<String, RowError> {
    let (verb, rest) = first_word(asked);
    match verb {
        "do" | "drive" | "read" => ask_command(rt, alloc, store, verb, asked),
        "same" | "unlike" => compare(alloc, folder, store, verb, rest, wanted),
        _ => ask_file(alloc, store, verb, rest, wanted),
    }
}

// Stores of files and a stream in memory.
ghost use Rattle.std.specs.Prelude.{IsSome, IfOk};
ghost use Rattle.md_outer.specs.MemDepot.{depot_state_of};

use crate::fixture::{reported, yes_or_no};
use md_outer::{Begin, Depot, Fetch, MemDepot, MemSink, Sink};
use row_lines::{RowError, bytes, first_word, number, parted, push};
use std::alloc::{AllocError, Global};
use std::mem;

/// The room of each file that is begun, and of the stream.
const ROOM: u64 = 4;

/// A store and a stream, which are made with the first question; what they are made of.
#[derive(Drop)]
pub(crate) struct Stores {
    files: Vec<(String, Vec<u8>)>,
    bad_reads: Vec<u64>,
    bad_writes: Vec<u64>,
    depot: Option<MemDepot>,
    sink: Option<MemSink>,
}

/// What a file holds, or why it is not fetched.
fn fetch(alloc: Global, depot: &mut MemDepot, text: &str) -> Result<String, RowError> {
    let (name, limit) = parted(text, ' ')?;
    match depot.fetch(alloc, name, number(limit)?) {
        Ok(bytes) => Ok(hex::encode_upper(alloc, &bytes)?),
        Err(Fetch::Failed) => reported(alloc, "failed"),
        Err(Fetch::TooLong) => reported(alloc, "too long"),
        Err(Fetch::NoMemory) => Err(RowError::Memory),
    }
}

/// The number of a file that is begun, or that it is not.
fn begin(alloc: Global, depot: &mut MemDepot, name: &str) -> Result<String, RowError> {
    match depot.begin(alloc, name) {
        Ok(number) => Ok(format!(in alloc; "{number}")?),
        Err(Begin::Failed) => reported(alloc, "failed"),
        Err(Begin::NoMemory) => Err(RowError::Memory),
    }
}

/// Appends a piece to a file that is begun, and adds whether it is.
fn append(
    alloc: Global,
    depot: &mut MemDepot,
    number: u32,
    piece: &str,
    text: &mut String,
) -> Result<(), RowError>
    requires { IsSome ((depot_state_of depot.old).begun number) }
    ensures { IsSome ((depot_state_of depot.new).begun number) }
{
    let piece = bytes(alloc, piece)?;
    let is_appended = depot.append(number, &piece).is_ok();
    text.push_str(if is_appended { " yes" } else { " no" })?;
    Ok(())
}

/// Begins a file and appends pieces, `NAME PIECE ..`: its number, and whether each piece is appended.
fn write(alloc: Global, depot: &mut MemDepot, text: &str) -> Result<String, RowError> {
    let (name, pieces) = parted(text, ' ')?;
    let Ok(number) = depot.begin(alloc, name) else {
        return reported(alloc, "failed");
    };
    let mut text = format!(in alloc; "{number}")?;
    append_all(alloc, depot, number, pieces, &mut text)?;
    Ok(text)
}

/// Appends pieces.
fn append_all(
    alloc: Global,
    depot: &mut MemDepot,
    number: u32,
    pieces: &str,
    text: &mut String,
) -> Result<(), RowError>
    requires { IsSome ((depot_state_of depot.old).begun number) }
{
    for piece in pieces.split_whitespace() {
        append(alloc, depot, number, piece, text)?;
    }
    Ok(())
}

/// What a file holds, or `none`.
fn held(alloc: Global, depot: &MemDepot, name: &str) -> Result<String, RowError> {
    match depot.file(name) {
        Some(bytes) if bytes.is_empty() => reported(alloc, "empty"),
        Some(bytes) => Ok(hex::encode_upper(alloc, bytes)?),
        None => reported(alloc, "none"),
    }
}

/// What is answered where a store is asked.
fn answer_of_depot(alloc: Global, depot: &mut MemDepot, text: &str) -> Result<String, RowError> {
    let (verb, rest) = first_word(text);
    match verb {
        "fetch" => fetch(alloc, depot, rest),
        "begin" => begin(alloc, depot, rest),
        "write" => write(alloc, depot, rest),
        "held" => held(alloc, depot, rest),
        _ => Err(RowError::NoSuchLine),
    }
}

/// What is answered where a stream is asked: `put PIECE`, and `bytes` for all that was put.
fn answer_of_sink(alloc: Global, sink: &mut MemSink, text: &str) -> Result<String, RowError> {
    let (verb, rest) = first_word(text);
    match verb {
        "put" => yes_or_no(alloc, sink.put(&bytes(alloc, rest)?).is_ok()),
        "bytes" => Ok(hex::encode_upper(alloc, sink.bytes())?),
        _ => Err(RowError::NoSuchLine),
    }
}

impl Stores {
    pub(crate) fn new(alloc: Global) -> Stores {
        Stores {
            files: Vec::new(alloc),
            bad_reads: Vec::new(alloc),
            bad_writes: Vec::new(alloc),
            depot: None,
            sink: None,
        }
    }

    /// Gives the store a file, `NAME BYTES`.
    fn give(&mut self, alloc: Global, text: &str) -> Result<(), RowError> {
        let (name, digits) = parted(text, ' ')?;
        let values = bytes(alloc, digits)?;
        Ok(self.add(alloc, name, values)?)
    }

    fn add(&mut self, alloc: Global, name: &str, values: Vec<u8>) -> Result<(), AllocError> {
        self.files.push((String::from_str(alloc, name)?, values))?;
        Ok(())
    }

    fn fail_read(&mut self, text: &str) -> Result<(), RowError> {
        Ok(push(&mut self.bad_reads, number(text)?)?)
    }

    fn fail_write(&mut self, text: &str) -> Result<(), RowError> {
        Ok(push(&mut self.bad_writes, number(text)?)?)
    }

    /// `give NAME BYTES` is a file that the store holds; `fail read N` and `fail write N` have a call fail, from 0.
    pub(crate) fn obey(&mut self, alloc: Global, text: &str) -> Result<(), RowError> {
        let (verb, rest) = first_word(text);
        match verb {
            "give" => self.give(alloc, rest),
            "fail-read" => self.fail_read(rest),
            "fail-write" => self.fail_write(rest),
            _ => Err(RowError::NoSuchLine),
        }
    }

    fn make_depot(&mut self, alloc: Global) -> Result<(), RowError> {
        let files = mem::replace(&mut self.files, Vec::new(alloc));
        let reads = mem::replace(&mut self.bad_reads, Vec::new(alloc));
        let writes = mem::replace(&mut self.bad_writes, Vec::new(alloc));
        match MemDepot::new(alloc, files, ROOM, reads, writes) {
            Ok(depot) => {
                self.depot = Some(depot);
                Ok(())
            }
            Err(_) => Err(RowError::Memory),
        }
    }

    fn make_sink(&mut self, alloc: Global) -> Result<(), RowError> {
        let writes = mem::replace(&mut self.bad_writes, Vec::new(alloc));
        match MemSink::new(alloc, ROOM, writes) {
            Ok(sink) => {
                self.sink = Some(sink);
                Ok(())
            }
            Err(_) => Err(RowError::Memory),
        }
    }

    /// What is answered where the store is asked.
    pub(crate) fn answer(&mut self, alloc: Global, text: &str) -> Result<String, RowError> {
        if self.depot.is_none() {
            self.make_depot(alloc)?;
        }
        match &mut self.depot {
            Some(depot) => answer_of_depot(alloc, depot, text),
            None => Err(RowError::NoSuchName),
        }
    }

    /// What is answered where the stream is asked.
    pub(crate) fn answer_of_sink(&mut self, alloc: Global, text: &str) -> Result<String, RowError> {
        if self.sink.is_none() {
            self.make_sink(alloc)?;
        }
        match &mut self.sink {
            Some(sink) => answer_of_sink(alloc, sink, text),
            None => Err(RowError::NoSuchName),
        }
    }
}

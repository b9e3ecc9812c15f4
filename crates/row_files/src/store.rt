use crate::named_files::NamedFiles;
use md_outer::MemDepot;
use row_lines::RowError;
use std::alloc::{AllocError, Global};
use std::mem;

/// The number of a fetch, of a begin or append, and of a print that fails, each counted from 0.
pub type Failing = [Option<u64>; 3];

/// The most bytes of a file that is begun.
const ROOM: u64 = 1 << 24;

/// The files of a row, and those that each row may copy.
#[derive(Drop)]
pub struct Store {
    kept: NamedFiles,
    given: NamedFiles,
    /// Made of the given files with the first words.
    depot: Option<MemDepot>,
    pub failing: Failing,
    /// The text that the last words printed.
    pub out: Vec<u8>,
}

/// A list of a number, or of none.
pub fn list_of(alloc: Global, number: Option<u64>) -> Result<Vec<u64>, AllocError> {
    let mut list = Vec::new(alloc);
    if let Some(number) = number {
        list.push(number)?;
    }
    Ok(list)
}

/// A depot of these files.
fn depot_of(alloc: Global, files: NamedFiles, failing: Failing) -> Result<MemDepot, AllocError> {
    let fetches = list_of(alloc, failing[0])?;
    let writes = list_of(alloc, failing[1])?;
    MemDepot::new(alloc, files.list, ROOM, fetches, writes)
}

impl Store {
    pub fn new(alloc: Global) -> Store {
        Store {
            kept: NamedFiles::new(alloc),
            given: NamedFiles::new(alloc),
            depot: None,
            failing: [None; 3],
            out: Vec::new(alloc),
        }
    }

    /// Goes on to the next row, with none of the files of this one.
    pub fn begin(&mut self, alloc: Global) {
        self.given = NamedFiles::new(alloc);
        self.depot = None;
        self.failing = [None; 3];
        self.out = Vec::new(alloc);
    }

    /// What a file of the row holds; or one that was kept.
    pub fn file(&self, name: &str) -> Option<&[u8]> {
        match self.own(name) {
            Some(bytes) => Some(bytes),
            None => self.kept.find(name),
        }
    }

    /// What a file of the row holds; `out` is the text that the last words printed.
    pub fn own(&self, name: &str) -> Option<&[u8]> {
        if name == "out" {
            return Some(self.out.as_slice());
        }
        match &self.depot {
            Some(depot) => depot.file(name),
            None => self.given.find(name),
        }
    }

    /// Gives the row a file that it has not; `NoSuchLine` after the first words.
    pub fn give(&mut self, alloc: Global, name: &str, bytes: Vec<u8>) -> Result<(), RowError> {
        if self.depot.is_some() || self.given.find(name).is_some() {
            return Err(RowError::NoSuchLine);
        }
        Ok(self.given.add(alloc, name, bytes)?)
    }

    /// Keeps a file for the rows after this one; `NoSuchLine` where one of its name is kept.
    pub fn keep(&mut self, alloc: Global, name: &str, bytes: Vec<u8>) -> Result<(), RowError> {
        if self.kept.find(name).is_some() {
            return Err(RowError::NoSuchLine);
        }
        Ok(self.kept.add(alloc, name, bytes)?)
    }

    /// The depot, which holds the given files at first.
    pub fn depot(&mut self, alloc: Global) -> Result<&mut MemDepot, AllocError> {
        if self.depot.is_none() {
            let files = mem::replace(&mut self.given, NamedFiles::new(alloc));
            self.depot = Some(depot_of(alloc, files, self.failing)?);
        }
        match &mut self.depot {
            Some(depot) => Ok(depot),
            None => Err(AllocError),
        }
    }
}

ghost use Rattle.std.specs.Prelude.{◌≡◌, ◌≤◌, length, vec_len, vec_capacity};
ghost use Rattle.md_outer.specs.Names.{names_of};
ghost use Rattle.md_outer.specs.Rooms.{HaveRoom};

use crate::NoMemory;
use crate::buffer::Buffer;
use crate::names::Names;
use std::alloc::Global;

/// How many files can be begun.
const MOST: usize = 8;

/// The files in memory that were begun, at most eight, each with the same room.
#[derive(Drop)]
pub(crate) struct Begun {
    pub(crate) names: Names,
    pub(crate) buffers: Vec<Buffer>,
    pub(crate) room: u64,
    ghost numbered: { vec_len buffers ≡ length (names_of names) },
    ghost few: { vec_len buffers ≤ 8 },
    ghost taken: { 8 ≤ vec_capacity buffers },
    ghost alike: { HaveRoom room buffers.items },
}

impl Begun {
    ghost use Rattle.std.specs.Prelude.{◌<◌, ◌+◌, ◌↔◌, [], ◌++◌, List, ℕ, None, Some, IsTrue, IsSome, OnOk, OnErr, IfOk, IfSome, slice_get, option_copied};
    ghost use Rattle.std.specs.Bool.{OnTrue, OnFalse};
    ghost use Rattle.md_outer.specs.Begun.{begun_names, files_of};
    ghost use Rattle.md_outer.specs.Numbers.{number_of, over};
    ghost use Rattle.md_outer.specs.Outside.{Files, with_file, bytes_of};

    pub(crate) fn new(alloc: Global, room: u64) -> Result<Begun, NoMemory>
        ensures names { IfOk result (λ begun. begun_names begun ≡ []) }
        ensures room { IfOk result (λ begun. begun.room ≡ room) }
    {
        let buffers = Vec::with_capacity(alloc, MOST)?;
        Ok(Begun {
            names: Names::new(alloc),
            buffers,
            room,
        })
    }

    pub(crate) fn number_of(&self, name: &str) -> Option<u32>
        ensures value { result ≡ number_of (begun_names self.now) name.now }
        ensures named { IfSome result (λ number. slice_get (begun_names self.now) number ≡ Some name.now) }
        ensures only { (number : ℕ) → slice_get (begun_names self.now) number ≡ Some name.now → result ≡ Some number }
    {
        self.names.number_of(name)
    }

    pub(crate) fn is_full(&self) -> bool
        ensures full { IsTrue result ↔ (length (begun_names self.now) ≡ 8) }
        ensures eighth { IsTrue result ↔ IsSome (slice_get (begun_names self.now) 7) }
        ensures few { length (begun_names self.now) ≤ 8 }
    {
        self.names.len() == MOST
    }

    /// What the begun file of a name holds.
    pub(crate) fn bytes(&self, name: &str) -> Option<&[u8]>
        ensures { option_copied result ≡ files_of self.now name.now }
    {
        match self.names.number_of(name) {
            Some(number) => Some(&self.buffers[number as usize].bytes),
            None => None,
        }
    }

    /// Makes a begun file empty.
    pub(crate) fn clear(&mut self, number: u32)
        requires { IsSome (slice_get (begun_names self.old) number) }
        ensures files { (name : List ℕ) (back : Files) → slice_get (begun_names self.old) number ≡ Some name
            → over (files_of self.new) back ≡ with_file (over (files_of self.old) back) name [] }
        ensures names { begun_names self.new ≡ begun_names self.old }
        ensures room { self.new.room ≡ self.old.room }
    {
        self.buffers[number as usize].clear();
    }

    /// Begins a file of a new name, and answers its number.
    pub(crate) fn add(&mut self, alloc: Global, name: &str) -> Result<u32, NoMemory>
        requires new { number_of (begun_names self.old) name.now ≡ None }
        requires few { length (begun_names self.old) < 8 }
        ensures named { IfOk result (λ number. slice_get (begun_names self.new) number ≡ Some name.now) }
        ensures files { OnOk result ((back : Files) → over (files_of self.new) back ≡ with_file (over (files_of self.old) back) name.now []) }
        ensures same_files { OnErr result (files_of self.new ≡ files_of self.old) }
        ensures names { (number : ℕ) → IsSome (slice_get (begun_names self.old) number) → slice_get (begun_names self.new) number ≡ slice_get (begun_names self.old) number }
        ensures room { self.new.room ≡ self.old.room }
    {
        let buffer = Buffer::new(alloc, self.room)?;
        let number = self.names.add(alloc, name)?;
        self.buffers.push(buffer).unwrap();
        Ok(number)
    }

    /// Adds the piece at a file's end where it fits, and else nothing. Answers whether it was added.
    pub(crate) fn append(&mut self, number: u32, piece: &[u8]) -> bool
        requires { IsSome (slice_get (begun_names self.old) number) }
        ensures fits { OnTrue result ((name : List ℕ) (back : Files) → slice_get (begun_names self.old) number ≡ Some name
            → length (bytes_of (over (files_of self.old) back) name) + length piece.now ≤ self.old.room) }
        ensures too_long { OnFalse result ((name : List ℕ) (back : Files) → slice_get (begun_names self.old) number ≡ Some name
            → self.old.room < length (bytes_of (over (files_of self.old) back) name) + length piece.now) }
        ensures added { OnTrue result ((name : List ℕ) (back : Files) → slice_get (begun_names self.old) number ≡ Some name
            → over (files_of self.new) back ≡ with_file (over (files_of self.old) back) name (bytes_of (over (files_of self.old) back) name ++ piece.now)) }
        ensures left { OnFalse result (files_of self.new ≡ files_of self.old) }
        ensures names { begun_names self.new ≡ begun_names self.old }
        ensures room { self.new.room ≡ self.old.room }
    {
        self.buffers[number as usize].append(piece)
    }
}

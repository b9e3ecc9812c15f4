use crate::begun::Begun;
use crate::calls::Calls;
use crate::fault::count_fault;
use crate::listed::listed;
use crate::{Begin, Depot, Failed, Fetch, NoMemory};
use std::alloc::Global;

/// A depot in memory, whose contents contracts observe, and which fails where its plan says so.
///
/// It holds the files that it was given and at most eight begun ones. A file that is begun again
/// keeps its number.
#[derive(Drop)]
pub struct MemDepot {
    given: Vec<(String, Vec<u8>)>,
    begun: Begun,
    reads: Calls,
    writes: Calls,
    read_faults: u64,
    write_faults: u64,
}

impl MemDepot {
    ghost use Rattle.std.specs.Prelude.{◌≡◌, ℕ, None, IfOk, option_copied};
    ghost use Rattle.md_outer.specs.Listed.{listed_files};
    ghost use Rattle.md_outer.specs.MemDepot.{depot_state_of, depot_plan_of};

    /// A depot that holds these files, of which the first of a name counts. No file is begun.
    ///
    /// Each begun file can hold `room` bytes. `bad_reads` has the numbers of the fetches that fail,
    /// counted from 0, and `bad_writes` those of the begins and appends, counted together. It fails
    /// only when memory is out.
    pub fn new(
        alloc: Global,
        files: Vec<(String, Vec<u8>)>,
        room: u64,
        bad_reads: Vec<u64>,
        bad_writes: Vec<u64>,
    ) -> Result<MemDepot, NoMemory>
        ensures files { IfOk result (λ depot. (depot_state_of depot).files ≡ listed_files files.items) }
        ensures nothing_begun { IfOk result (λ depot. (number : ℕ) → (depot_state_of depot).begun number ≡ None) }
        ensures no_reads { IfOk result (λ depot. (depot_state_of depot).read_faults ≡ 0) }
        ensures no_writes { IfOk result (λ depot. (depot_state_of depot).write_faults ≡ 0) }
        ensures plan { IfOk result (λ depot. depot_plan_of depot ≡ record {
          room = room;
          reads = record { bad = bad_reads.items; made = 0 };
          writes = record { bad = bad_writes.items; made = 0 };
        }) }
    {
        let begun = Begun::new(alloc, room)?;
        Ok(MemDepot {
            given: files,
            begun,
            reads: Calls::new(bad_reads),
            writes: Calls::new(bad_writes),
            read_faults: 0,
            write_faults: 0,
        })
    }

    /// What a file holds; none exactly where no such file is held.
    pub fn file(&self, name: &str) -> Option<&[u8]>
        ensures { option_copied result ≡ (depot_state_of self.now).files name.now }
    {
        match self.begun.bytes(name) {
            Some(bytes) => Some(bytes),
            None => listed(&self.given, name),
        }
    }
}

impl Depot for MemDepot {
    ghost use Rattle.std.specs.Prelude.{◌≡◌, ◌≤◌, ◌<◌, ◌⊎◌, ◌↔◌, ◌+◌, ◌++◌, [], ℕ, List, Some, None, length, IfOk, OnOk, OnErr, IsErr, IsErrOf, IsSome, IsSomeAnd};
    ghost use Rattle.md_outer.specs.Calls.{IsBad, one_more};
    ghost use Rattle.md_outer.specs.MemDepot.{depot_state_of, depot_plan_of, IsNinth};
    ghost use Rattle.md_outer.specs.Outside.{GoesOn, Rose, IsPrefix, with_file, bytes_of};

    ghost observable = { Unit {0} };

    ghost state = { depot_state_of };

    /// Fails exactly where no such file is held, which is no fault, or the plan has it.
    fn fetch(&mut self, alloc: Global, name: &str, limit: u64) -> Result<Vec<u8>, Fetch>
        ensures within { IfOk result (λ bytes. length bytes.items ≤ limit) }
        ensures bytes { IfOk result (λ bytes. (depot_state_of self.old).files name.now ≡ Some bytes.items) }

        ensures fails { IsErrOf result Fetch.Failed ↔ (((depot_state_of self.old).files name.now ≡ None) ⊎ IsBad (depot_plan_of self.old).reads) }
        ensures failed { IsErrOf result Fetch.Failed → Rose (depot_state_of self.old).read_faults (depot_state_of self.new).read_faults
            ⊎ ((depot_state_of self.old).files name.now ≡ None) }
        ensures too_long { IsErrOf result Fetch.TooLong
            → IsSomeAnd ((depot_state_of self.old).files name.now) (λ bytes. limit < length bytes) }
        ensures missing { (depot_state_of self.old).files name.now ≡ None
            → (depot_state_of self.new).read_faults ≡ (depot_state_of self.old).read_faults }
        ensures quiet { OnOk result ((depot_state_of self.new).read_faults ≡ (depot_state_of self.old).read_faults) }

        ensures files { (depot_state_of self.new).files ≡ (depot_state_of self.old).files }
        ensures writes { (depot_state_of self.new).write_faults ≡ (depot_state_of self.old).write_faults }
        ensures goes_on { GoesOn (depot_state_of self.old) (depot_state_of self.new) }
        ensures plan { depot_plan_of self.new ≡ record (depot_plan_of self.old) { reads = one_more (depot_plan_of self.old).reads } }
    {
        let fails = self.reads.next_fails();
        match self.file(name) {
            None => Err(Fetch::Failed),
            Some(_) if fails => {
                count_fault(&mut self.read_faults);
                Err(Fetch::Failed)
            }
            Some(bytes) if bytes.len() as u64 > limit => Err(Fetch::TooLong),
            Some(bytes) => Ok(Vec::from_slice(alloc, bytes)?),
        }
    }

    /// Fails exactly where the plan has it, or where a ninth name is begun. A name that is begun
    /// again keeps its number.
    fn begin(&mut self, alloc: Global, name: &str) -> Result<u32, Begin>
        ensures begun { IfOk result (λ file. (depot_state_of self.new).begun file ≡ Some name.now) }
        ensures again { (file : ℕ) → (depot_state_of self.old).begun file ≡ Some name.now → IfOk result (λ again. again ≡ file) }
        ensures emptied { OnOk result ((depot_state_of self.new).files ≡ with_file (depot_state_of self.old).files name.now []) }

        ensures fails { IsErrOf result Begin.Failed ↔ (IsBad (depot_plan_of self.old).writes ⊎ IsNinth (depot_state_of self.old) name.now) }
        ensures failed { IsErrOf result Begin.Failed → Rose (depot_state_of self.old).write_faults (depot_state_of self.new).write_faults }
        ensures quiet { OnOk result ((depot_state_of self.new).write_faults ≡ (depot_state_of self.old).write_faults) }
        ensures files { OnErr result ((depot_state_of self.new).files ≡ (depot_state_of self.old).files) }

        ensures reads { (depot_state_of self.new).read_faults ≡ (depot_state_of self.old).read_faults }
        ensures goes_on { GoesOn (depot_state_of self.old) (depot_state_of self.new) }
        ensures plan { depot_plan_of self.new ≡ record (depot_plan_of self.old) { writes = one_more (depot_plan_of self.old).writes } }
    {
        let fails = self.writes.next_fails();
        let known = self.begun.number_of(name);
        if fails || known.is_none() && self.begun.is_full() {
            count_fault(&mut self.write_faults);
            return Err(Begin::Failed);
        }
        match known {
            Some(number) => {
                self.begun.clear(number);
                Ok(number)
            }
            None => Ok(self.begun.add(alloc, name)?),
        }
    }

    /// Fails exactly where the plan has it or the file's room would be passed, and adds nothing
    /// then.
    fn append(&mut self, file: u32, piece: &[u8]) -> Result<(), Failed>
        requires { IsSome ((depot_state_of self.old).begun file) }

        ensures appended { OnOk result ((name : List ℕ) → (depot_state_of self.old).begun file ≡ Some name →
            (depot_state_of self.new).files ≡ with_file (depot_state_of self.old).files name (bytes_of (depot_state_of self.old).files name ++ piece.now)) }

        ensures fails { (name : List ℕ) → (depot_state_of self.old).begun file ≡ Some name → (IsErr result ↔ (IsBad (depot_plan_of self.old).writes
            ⊎ ((depot_plan_of self.old).room < length (bytes_of (depot_state_of self.old).files name) + length piece.now))) }
        ensures failed { OnErr result (Rose (depot_state_of self.old).write_faults (depot_state_of self.new).write_faults) }
        ensures quiet { OnOk result ((depot_state_of self.new).write_faults ≡ (depot_state_of self.old).write_faults) }
        ensures nothing { OnErr result ((depot_state_of self.new).files ≡ (depot_state_of self.old).files) }
        ensures part { OnErr result ((name : List ℕ) → (depot_state_of self.old).begun file ≡ Some name →
            (part : List ℕ) × IsPrefix part piece.now × ((depot_state_of self.new).files
            ≡ with_file (depot_state_of self.old).files name (bytes_of (depot_state_of self.old).files name ++ part))) }

        ensures reads { (depot_state_of self.new).read_faults ≡ (depot_state_of self.old).read_faults }
        ensures goes_on { GoesOn (depot_state_of self.old) (depot_state_of self.new) }
        ensures plan { depot_plan_of self.new ≡ record (depot_plan_of self.old) { writes = one_more (depot_plan_of self.old).writes } }
    {
        if self.writes.next_fails() {
            count_fault(&mut self.write_faults);
            return Err(Failed);
        }
        if !self.begun.append(file, piece) {
            count_fault(&mut self.write_faults);
            return Err(Failed);
        }
        Ok(())
    }
}

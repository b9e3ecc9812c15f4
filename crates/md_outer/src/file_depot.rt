ghost use Rattle.std.specs.Prelude.{◌≡◌, ℕ, Some, IfOk, IsSome, length, slice_get, vec_len};
ghost use Rattle.md_outer.specs.Names.{names_of};

use crate::fault::count_fault;
use crate::names::Names;
use crate::transfer::{read_to_limit, write_whole};
use crate::{Begin, Depot, Failed, Fetch, NoMemory};
use std::alloc::Global;
use std::fs;
use std::rt::Files;

/// The files of the system as a depot. Contracts observe no contents. A begun file stays open as long as the
/// depot.
#[derive(Drop)]
pub struct FileDepot<R: Files + Drop> {
    rt: R,
    names: Names,
    files: Vec<Option<R::File>>,
    read_faults: u64,
    write_faults: u64,
    /// How many bytes the fetches have read in all. The count stops at its greatest value.
    read_bytes: u64,
    ghost numbered: { vec_len files ≡ length (names_of names) },
}

impl<R: Files + Drop> FileDepot<R> {
    ghost use Rattle.std.specs.Prelude.{◌≡◌, ℕ, None};
    ghost use Rattle.md_outer.specs.FileDepot.{file_state};

    /// A depot over a runtime with files. Nothing is begun, and no fault is counted yet.
    pub fn new(rt: R, alloc: Global) -> FileDepot<R>
        ensures nothing_begun { (number : ℕ) → (file_state result).begun number ≡ None }
        ensures no_reads { (file_state result).read_faults ≡ 0 }
        ensures no_writes { (file_state result).write_faults ≡ 0 }
    {
        FileDepot {
            rt,
            names: Names::new(alloc),
            files: Vec::new(alloc),
            read_faults: 0,
            write_faults: 0,
            read_bytes: 0,
        }
    }
}

impl<R: Files + Drop> Depot for FileDepot<R> {
    ghost use Rattle.std.specs.Prelude.{◌≡◌, ◌≤◌, ◌+◌, length, IfOk, IsErrOf};
    ghost use Rattle.md_outer.specs.FileDepot.{file_state, read_in};
    ghost use Rattle.md_outer.specs.Outside.{GoesOn, Rose};

    ghost observable = { ⊥ };

    ghost state = { file_state };

    /// Reads at most one byte past the limit, however long the file is.
    fn fetch(&mut self, alloc: Global, name: &str, limit: u64) -> Result<Vec<u8>, Fetch>
        ensures within { IfOk result (λ bytes. length bytes.items ≤ limit) }
        ensures failed { IsErrOf result Fetch.Failed → Rose (file_state self.old).read_faults (file_state self.new).read_faults }
        ensures ends { read_in self.new ≤ read_in self.old + (limit + 1) }
        ensures writes { (file_state self.new).write_faults ≡ (file_state self.old).write_faults }
        ensures goes_on { GoesOn (file_state self.old) (file_state self.new) }
    {
        let fetched = match fs::open(&self.rt, name) {
            Ok(mut file) => read_to_limit(alloc, &mut file, limit, &mut self.read_bytes),
            Err(_) => Err(Fetch::Failed),
        };
        if let Err(Fetch::Failed) = fetched {
            count_fault(&mut self.read_faults);
        }
        fetched
    }

    fn begin(&mut self, alloc: Global, name: &str) -> Result<u32, Begin> {
        // The memory comes first, so that want of it leaves the file as it is.
        let number = number_for(alloc, &mut self.names, &mut self.files, name)?;
        match fs::create(&self.rt, name) {
            Ok(file) => {
                self.files[number as usize] = Some(file);
                Ok(number)
            }
            Err(_) => {
                count_fault(&mut self.write_faults);
                Err(Begin::Failed)
            }
        }
    }

    fn append(&mut self, file: u32, piece: &[u8]) -> Result<(), Failed> {
        let written = match &mut self.files[file as usize] {
            Some(file) => write_whole(file, piece),
            None => Err(Failed),
        };
        if written.is_err() {
            count_fault(&mut self.write_faults);
        }
        written
    }
}

/// The number of a name, which gets the next one, and no file yet, where it has none.
fn number_for<F: Drop>(
    alloc: Global,
    names: &mut Names,
    files: &mut Vec<Option<F>>,
    name: &str,
) -> Result<u32, NoMemory>
    requires { vec_len files.old ≡ length (names_of names.old) }
    ensures numbered { vec_len files.new ≡ length (names_of names.new) }
    ensures named { IfOk result (λ number. slice_get (names_of names.new) number ≡ Some name.now) }
    ensures kept { (number : ℕ) → IsSome (slice_get (names_of names.old) number) → slice_get (names_of names.new) number ≡ slice_get (names_of names.old) number }
{
    if let Some(number) = names.number_of(name) {
        return Ok(number);
    }
    if names.len() > u32::MAX as usize {
        return Err(NoMemory);
    }
    files.reserve(1)?;
    let number = names.add(alloc, name)?;
    files.push(None).unwrap();
    Ok(number)
}

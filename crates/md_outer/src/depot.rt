ghost use Rattle.std.specs.Prelude.{◌≡◌, ◌≤◌, ◌<◌, ◌⊎◌, ◌++◌, [], ℕ, List, Some, None, length, IfOk, OnOk, OnErr, IsErrOf, IsSome, IsSomeAnd};
ghost use Rattle.md_outer.specs.Outside.{DepotState, GoesOn, Rose, IsPrefix, with_file, bytes_of};

use crate::{Failed, NoMemory};
use std::alloc::Global;

/// Why a file is not fetched.
#[derive(Clone, Copy, PartialEq, Eq, Debug)]
pub enum Fetch {
    /// No such file is held, or a read failed.
    Failed,
    /// The file is longer than the limit.
    TooLong,
    /// Memory is out.
    NoMemory,
}

/// Why a file is not begun.
#[derive(Clone, Copy, PartialEq, Eq, Debug)]
pub enum Begin {
    /// The file cannot be made.
    Failed,
    /// Memory is out.
    NoMemory,
}

impl From<NoMemory> for Fetch {
    ghost use Rattle.md_outer.specs.declared.depot.Fetch.TheVariants.{NoMemory};

    ghost from_gives = { λ _ fault. fault ≡ NoMemory };

    fn from(_: NoMemory) -> Self {
        Fetch::NoMemory
    }
}

impl From<NoMemory> for Begin {
    ghost use Rattle.md_outer.specs.declared.depot.Begin.TheVariants.{NoMemory};

    ghost from_gives = { λ _ fault. fault ≡ NoMemory };

    fn from(_: NoMemory) -> Self {
        Begin::NoMemory
    }
}

/// A store of files by their names.
///
/// It counts its faults of reading and of writing. A count never falls, and stops at 2^64 - 1,
/// where it counts as risen.
pub trait Depot {
    /// Whether contracts observe what the files hold. They observe the names of begun numbers in
    /// each case.
    ghost observable: { Type 0 };

    /// The files, the names of the begun numbers, and both counts of faults.
    ghost state: { Self → DepotState };

    /// The bytes of a file, of at most `limit` bytes. It changes no file.
    ///
    /// It is `Failed` where no such file is held, which is no fault, or where a read failed, which is a
    /// fault of reading. It is `TooLong` where the file is longer than the limit, and `NoMemory` when
    /// memory is out.
    fn fetch(&mut self, alloc: Global, name: &str, limit: u64) -> Result<Vec<u8>, Fetch>
        ensures within { IfOk result (λ bytes. length bytes.items ≤ limit) }
        ensures bytes { IfOk result (λ bytes. observable → (state self.old).files name.now ≡ Some bytes.items) }

        ensures failed { IsErrOf result Fetch.Failed → Rose (state self.old).read_faults (state self.new).read_faults
            ⊎ (observable × ((state self.old).files name.now ≡ None)) }
        ensures too_long { IsErrOf result Fetch.TooLong → observable
            → IsSomeAnd ((state self.old).files name.now) (λ bytes. limit < length bytes) }
        ensures missing { observable → (state self.old).files name.now ≡ None → IsErrOf result Fetch.Failed
            × ((state self.new).read_faults ≡ (state self.old).read_faults) }

        ensures files { observable → (state self.new).files ≡ (state self.old).files }
        ensures writes { (state self.new).write_faults ≡ (state self.old).write_faults }
        ensures goes_on { GoesOn (state self.old) (state self.new) };

    /// Makes a file empty, and answers its number, by which it is appended to.
    ///
    /// It is `Failed` where the file cannot be made, which is a fault of writing, and `NoMemory` when
    /// memory is out. Either changes no file.
    fn begin(&mut self, alloc: Global, name: &str) -> Result<u32, Begin>
        ensures begun { IfOk result (λ file. (state self.new).begun file ≡ Some name.now) }
        ensures emptied { OnOk result (observable → (state self.new).files ≡ with_file (state self.old).files name.now []) }

        ensures failed { IsErrOf result Begin.Failed → Rose (state self.old).write_faults (state self.new).write_faults }
        ensures files { OnErr result (observable → (state self.new).files ≡ (state self.old).files) }

        ensures reads { (state self.new).read_faults ≡ (state self.old).read_faults }
        ensures goes_on { GoesOn (state self.old) (state self.new) };

    /// Adds the piece at the end of a begun file, by the number that `begin` of this depot
    /// answered. It takes no memory.
    ///
    /// It is `Failed` where the file did not take the whole piece. Then the count of write faults rose,
    /// and a prefix of the piece was added, which may be empty.
    fn append(&mut self, file: u32, piece: &[u8]) -> Result<(), Failed>
        requires { IsSome ((state self.old).begun file) }

        ensures appended { OnOk result (observable → (name : List ℕ) → (state self.old).begun file ≡ Some name →
            (state self.new).files ≡ with_file (state self.old).files name (bytes_of (state self.old).files name ++ piece.now)) }

        ensures failed { OnErr result (Rose (state self.old).write_faults (state self.new).write_faults) }
        ensures part { OnErr result (observable → (name : List ℕ) → (state self.old).begun file ≡ Some name →
            (part : List ℕ) × IsPrefix part piece.now × ((state self.new).files
            ≡ with_file (state self.old).files name (bytes_of (state self.old).files name ++ part))) }

        ensures reads { (state self.new).read_faults ≡ (state self.old).read_faults }
        ensures goes_on { GoesOn (state self.old) (state self.new) };
}

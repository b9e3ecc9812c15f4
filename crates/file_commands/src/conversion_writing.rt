ghost use Rattle.std.specs.Prelude.{◌≡◌, ◌⊎◌, ℕ, List, IsErrOf, OnErr, OnOk};
ghost use Rattle.md_outer.specs.Outside.{GoesOn, IsPrefix, Rose, with_file};

use md_outer::{Begin, Depot, Failed};
use std::alloc::Global;

/// Writes bytes into a file of this name, in place of what it held. It fails where the depot's write fault rises, after
/// which the file may hold a prefix of the bytes, or where memory runs out, and then no file has changed.
pub(crate) fn write_file<D: Depot>(
    alloc: Global,
    name: &str,
    bytes: &[u8],
    depot: &mut D,
) -> Result<(), Begin>
    ensures files { OnOk result (D.observable → (D.state depot.new).files ≡ with_file (D.state depot.old).files name.now bytes.now) }
    ensures failed { IsErrOf result Begin.Failed → Rose (D.state depot.old).write_faults (D.state depot.new).write_faults }
    ensures begun { IsErrOf result Begin.NoMemory → D.observable → (D.state depot.new).files ≡ (D.state depot.old).files }
    ensures part { OnErr result (D.observable → ((D.state depot.new).files ≡ (D.state depot.old).files)
        ⊎ ((part : List ℕ) × IsPrefix part bytes.now × ((D.state depot.new).files ≡ with_file (D.state depot.old).files name.now part))) }
    ensures goes_on { GoesOn (D.state depot.old) (D.state depot.new) }
{
    let file = match depot.begin(alloc, name) {
        Ok(file) => file,
        Err(refused) => return Err(refused),
    };
    match depot.append(file, bytes) {
        Ok(()) => Ok(()),
        Err(Failed) => Err(Begin::Failed),
    }
}

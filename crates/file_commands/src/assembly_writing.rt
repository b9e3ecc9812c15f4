ghost use Rattle.std.specs.Prelude.{◌≡◌, ℕ, List, [], IfOk, IsErrOf, OnErr, OnOk, Option, length};
ghost use Rattle.std.specs.Option.{option_copied};
ghost use Rattle.md_args.specs.Shown.{shown_assembling};
ghost use Rattle.md_outer.specs.Outside.{GoesOn, IsPrefix, Rose};
ghost use Rattle.file_commands.specs.Assemblies.{WriteCause, WritesFiles, with_list};
ghost use Rattle.file_commands.specs.Begun.{IsBegun, with_more};

use crate::completion::Completion;
use md_args::AsmWords;
use md_outer::{Begin, Depot, Failed};
use std::alloc::Global;

/// Begins the file of this name, if one is given: `None` without a name. It fails where the depot's write fault rises or
/// memory runs out; then no file has changed.
pub(crate) fn begin_list<D: Depot>(
    alloc: Global,
    name: Option<&str>,
    depot: &mut D,
) -> Result<Option<u32>, Begin>
    ensures begun { IfOk result (λ file. IsBegun (D.state depot.new) file (option_copied name.entry)) }
    ensures emptied { OnOk result (D.observable → (D.state depot.new).files ≡ with_list (option_copied name.entry) (D.state depot.old).files []) }
    ensures failed { IsErrOf result Begin.Failed → Rose (D.state depot.old).write_faults (D.state depot.new).write_faults }
    ensures files { OnErr result (D.observable → (D.state depot.new).files ≡ (D.state depot.old).files) }
    ensures goes_on { GoesOn (D.state depot.old) (D.state depot.new) }
{
    match name {
        Some(name) => match depot.begin(alloc, name) {
            Ok(file) => Ok(Some(file)),
            Err(refused) => Err(refused),
        },
        None => Ok(None),
    }
}

/// Appends the list to its file, if one is begun. It fails where the depot's write fault rises; then a prefix of the list
/// was written.
pub(crate) fn append_list<D: Depot>(
    file: Option<u32>,
    list: &[u8],
    depot: &mut D,
) -> Result<(), Failed>
    requires { (name : Option (List ℕ)) × IsBegun (D.state depot.old) file name }
    ensures appended { OnOk result (D.observable → (name : Option (List ℕ)) → IsBegun (D.state depot.old) file name
        → (D.state depot.new).files ≡ with_more name (D.state depot.old).files list.now) }
    ensures failed { OnErr result (Rose (D.state depot.old).write_faults (D.state depot.new).write_faults) }
    ensures part { OnErr result (D.observable → (name : Option (List ℕ)) → IsBegun (D.state depot.old) file name
        → (part : List ℕ) × IsPrefix part list.now × ((D.state depot.new).files ≡ with_more name (D.state depot.old).files part)) }
    ensures goes_on { GoesOn (D.state depot.old) (D.state depot.new) }
{
    match file {
        Some(file) => depot.append(file, list),
        None => Ok(()),
    }
}

/// Writes an image and its list, if one is asked for: both files are begun, and then written, the image first. The
/// outcome is `Made`, or `Unwritten`, `Unlisted` or `NoMemory`.
pub(crate) fn write_both<D: Depot>(
    alloc: Global,
    words: &AsmWords<'_>,
    image: &[u8],
    list: &[u8],
    depot: &mut D,
) -> Completion
    ensures cause { WriteCause (length image.now) (D.state depot.old) (D.state depot.new) result }
    ensures files { D.observable → WritesFiles (shown_assembling words.now) (D.state depot.old).files (D.state depot.new).files image.now list.now result }
    ensures goes_on { GoesOn (D.state depot.old) (D.state depot.new) }
{
    let file = match depot.begin(alloc, words.output) {
        Ok(file) => file,
        Err(Begin::Failed) => return Completion::Unwritten,
        Err(Begin::NoMemory) => return Completion::NoMemory,
    };
    let second = match begin_list(alloc, words.list, depot) {
        Ok(second) => second,
        Err(Begin::Failed) => return Completion::Unlisted,
        Err(Begin::NoMemory) => return Completion::NoMemory,
    };
    match depot.append(file, image) {
        Ok(()) => match append_list(second, list, depot) {
            Ok(()) => Completion::Made(image.len() as u64),
            Err(Failed) => Completion::Unlisted,
        },
        Err(Failed) => Completion::Unwritten,
    }
}

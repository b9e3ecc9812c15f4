ghost use Rattle.md_outer.specs.Outside.{GoesOn};
ghost use Rattle.md_args.specs.Shown.{shown_conversion};
ghost use Rattle.file_commands.specs.Conversions.{HasCause, LeavesFiles};

use crate::conversion_writing::write_file;
use crate::converted::Converted;
use crate::making::make;
use md_args::ConvertWords;
use md_outer::{Begin, Depot, Fetch};
use md_vgm::VgmFault;
use std::alloc::Global;

/// The greatest length of an input, in bytes.
const LONGEST: u64 = 67_108_864;

/// Makes a file of another one, as the words ask for. The input, of at most 67,108,864 bytes, is read and made
/// into the output's bytes before the output is begun, so that what is refused changes no file. The outcome says whether
/// it was written, and else what failed first.
pub fn convert<D: Depot>(alloc: Global, words: &ConvertWords<'_>, depot: &mut D) -> Converted
    ensures cause { HasCause D.observable (shown_conversion words.now) (D.state depot.old) (D.state depot.new) result }
    ensures files { D.observable → LeavesFiles (shown_conversion words.now) (D.state depot.old).files (D.state depot.new).files result }
    ensures goes_on { GoesOn (D.state depot.old) (D.state depot.new) }
{
    let bytes = match depot.fetch(alloc, words.input, LONGEST) {
        Ok(bytes) => bytes,
        Err(Fetch::Failed) => return Converted::Unread,
        Err(Fetch::TooLong) => return Converted::TooLong,
        Err(Fetch::NoMemory) => return Converted::NoMemory,
    };
    let made = match make(alloc, words, bytes.as_slice()) {
        Ok(made) => made,
        Err(VgmFault::NoMemory) => return Converted::NoMemory,
        Err(fault) => return Converted::Refused(fault),
    };
    match write_file(alloc, words.output, made.as_slice(), depot) {
        Ok(()) => Converted::Made(made.len() as u64),
        Err(Begin::Failed) => Converted::Unwritten,
        Err(Begin::NoMemory) => Converted::NoMemory,
    }
}

ghost use Rattle.md_outer.specs.Outside.{GoesOn};
ghost use Rattle.md_args.specs.Shown.{shown_assembling};
ghost use Rattle.file_commands.specs.Assemblies.{HasCause, LeavesFiles};

use crate::assembly_writing::write_both;
use crate::completion::Completion;
use crate::listing::list_of;
use asm_laws::assemblies::image_says_its_lines;
use asm_laws::round_trip::{faults_are_right, instructions_are_kept, numbers_are_in_range};
use md_args::AsmWords;
use md_asm::{AsmFault, assemble};
use md_outer::{Depot, Fetch};
use std::alloc::Global;

/// The greatest length of a source, in bytes.
const LONGEST: u64 = 1_048_576;

/// Assembles a source into the image's file, and lists its instructions in a second one, as the words ask for. The
/// source, of at most 1,048,576 bytes, is assembled before a file is begun, so that what is refused changes none. The
/// outcome says whether both were written, and else what failed first.
pub fn assemble_file<D: Depot>(alloc: Global, words: &AsmWords<'_>, depot: &mut D) -> Completion
    ensures cause { HasCause D.observable (shown_assembling words.now) (D.state depot.old) (D.state depot.new) result }
    ensures files { D.observable → LeavesFiles (shown_assembling words.now) (D.state depot.old).files (D.state depot.new).files result }
    ensures goes_on { GoesOn (D.state depot.old) (D.state depot.new) }
{
    let source = match depot.fetch(alloc, words.source, LONGEST) {
        Ok(source) => source,
        Err(Fetch::Failed) => return Completion::Unread,
        Err(Fetch::TooLong) => return Completion::TooLong,
        Err(Fetch::NoMemory) => return Completion::NoMemory,
    };
    instructions_are_kept();
    faults_are_right();
    let assembled = match assemble(alloc, source.as_slice()) {
        Ok(assembled) => assembled,
        Err(AsmFault::Line { line, kind }) => return Completion::Refused(line, kind),
        Err(AsmFault::NoMemory) => return Completion::NoMemory,
    };
    let image = assembled.image();
    image_says_its_lines(image);
    numbers_are_in_range(image);
    match list_of(alloc, image, assembled.lines()) {
        Ok(list) => write_both(alloc, words, image, list.as_bytes(), depot),
        Err(_) => Completion::NoMemory,
    }
}

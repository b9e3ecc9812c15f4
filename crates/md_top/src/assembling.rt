ghost use Rattle.std.specs.Prelude.{◌≡◌};
ghost use Rattle.md_args.specs.Shown.{shown_assembling};
ghost use Rattle.md_outer.specs.Outside.{PutsText};
ghost use Rattle.md_top.specs.Assemblies as assemblies;
ghost use Rattle.md_top.specs.Assemblies.{AsmEnds, AsmFiles, source_line};

use crate::command_outcome::CommandOutcome;
use crate::put::put_three;
use file_commands::{Completion, assemble_file};
use itoa::Buffer;
use md_args::{AsmWords, Input, Output};
use md_outer::{Depot, Failed, Sink};
use std::alloc::Global;

/// Assembles the source that the words name.
pub(crate) fn assemble_source<D: Depot>(
    alloc: Global,
    words: &AsmWords<'_>,
    depot: &mut D,
) -> CommandOutcome
    ensures cause { AsmEnds D.observable (shown_assembling words.now) (D.state depot.old) (D.state depot.new) result }
    ensures files { D.observable → AsmFiles (shown_assembling words.now) (D.state depot.old).files (D.state depot.new).files result }
{
    match assemble_file(alloc, words, depot) {
        Completion::Made(size) => CommandOutcome::Converted(size),
        Completion::Unread => CommandOutcome::ReadFault(Input::First),
        Completion::TooLong => CommandOutcome::TooLong(Input::First),
        Completion::Refused(line, kind) => CommandOutcome::SourceRefused(line, kind),
        Completion::Unwritten => CommandOutcome::WriteFault(Output::Target),
        Completion::Unlisted => CommandOutcome::WriteFault(Output::Listing),
        Completion::NoMemory => CommandOutcome::Memory,
    }
}

/// The end of the line of a source that is refused.
fn kind_text(kind: u8) -> &'static str
    ensures { result.now ≡ assemblies.kind_text kind }
{
    match kind {
        1 => ": bad line\n",
        2 => ": bad number\n",
        3 => ": twice\n",
        4 => ": odd\n",
        5 => ": overlap\n",
        6 => ": too large\n",
        7 => ": unknown name\n",
        8 => ": does not fit\n",
        _ => ": far\n",
    }
}

/// Puts the line of a source that is refused, by its line and the kind of its fault.
pub(crate) fn put_source_line<S: Sink>(out: &mut S, line: u32, kind: u8) -> Result<(), Failed>
    ensures { PutsText S.observable (source_line line kind) (S.state out.old) (S.state out.new) result }
{
    let mut digits = Buffer::new();
    put_three(
        out,
        "refused: source line ",
        digits.format(line).as_bytes(),
        kind_text(kind),
    )
}

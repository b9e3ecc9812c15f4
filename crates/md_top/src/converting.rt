ghost use Rattle.md_outer.specs.Outside.{PutsText};
ghost use Rattle.md_top.specs.Conversions.{ConvertEnds, ConvertFiles, fault_line};
ghost use Rattle.md_args.specs.Shown.{shown_conversion};

use crate::command_outcome::CommandOutcome;
use crate::report::put_number;
use file_commands::{Converted, convert};
use md_args::{ConvertWords, Input, Output};
use md_outer::{Depot, Failed, Sink};
use md_vgm::VgmFault;
use std::alloc::Global;

/// Makes the file that the words ask for of another one.
pub(crate) fn convert_file<D: Depot>(
    alloc: Global,
    words: &ConvertWords<'_>,
    depot: &mut D,
) -> CommandOutcome
    ensures cause { ConvertEnds D.observable (shown_conversion words.now) (D.state depot.old) (D.state depot.new) result }
    ensures files { D.observable → ConvertFiles (shown_conversion words.now) (D.state depot.old).files (D.state depot.new).files result }
{
    match convert(alloc, words, depot) {
        Converted::Made(size) => CommandOutcome::Converted(size),
        Converted::Unread => CommandOutcome::ReadFault(Input::First),
        Converted::TooLong => CommandOutcome::TooLong(Input::First),
        Converted::Refused(fault) => CommandOutcome::InputRefused(fault),
        Converted::Unwritten => CommandOutcome::WriteFault(Output::Target),
        Converted::NoMemory => CommandOutcome::Memory,
    }
}

/// Puts the line of an input of a conversion that is refused, by its fault and the offset of it.
pub(crate) fn put_input_fault<S: Sink>(out: &mut S, fault: VgmFault) -> Result<(), Failed>
    ensures { PutsText S.observable (fault_line fault) (S.state out.old) (S.state out.new) result }
{
    match fault {
        VgmFault::Form { place } => put_number(out, "refused: vgm form at ", place),
        VgmFault::Dense { place } => put_number(out, "refused: vgm dense at ", place),
        VgmFault::Long { place } => put_number(out, "refused: vgm long at ", place),
        VgmFault::NoMemory => out.put(b"refused: memory\n"),
    }
}

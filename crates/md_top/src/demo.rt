ghost use Rattle.std.specs.Prelude.{IfOk, IfErr};
ghost use Rattle.md_top.specs.Demos.{DemoEnds};
ghost use Rattle.md_top.specs.Stages.{IsAboutToRunDemo};
ghost use Rattle.md_args.specs.Shown.{shown_demo};

use crate::command_outcome::CommandOutcome;
use md_args::DemoWords;
use md_word::NoMemory;
use md_word::clock::LAST_CYCLE;
use run_command::{Course, begin, demo_machine};
use std::alloc::Global;

/// The run of the demonstration cartridge that the words ask for, at power-on and with nothing pressed on the
/// pads.
pub(crate) fn begin_demo(alloc: Global, demo: &DemoWords) -> Result<Course, CommandOutcome>
    ensures about { IfOk result (IsAboutToRunDemo (shown_demo demo.now)) }
    ensures err { IfErr result (DemoEnds (shown_demo demo.now)) }
{
    let demo = *demo;
    if demo.cycles > LAST_CYCLE {
        return Err(CommandOutcome::TooFar);
    }
    if demo.cycles == 0 {
        return Err(CommandOutcome::Behind(0));
    }
    let machine = match demo_machine(alloc, &demo) {
        Ok(machine) => machine,
        Err(NoMemory) => return Err(CommandOutcome::Memory),
    };
    match begin(alloc, machine) {
        Ok(course) => Ok(course),
        Err(NoMemory) => Err(CommandOutcome::Memory),
    }
}

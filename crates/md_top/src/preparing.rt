ghost use Rattle.std.specs.Prelude.{◌≡◌, Some, IfOk, IfErr, map, string_bytes};
ghost use Rattle.md_outer.specs.Outside.{GoesOn};
ghost use Rattle.md_top.specs.CommandOutcomes.{InfoEnds, RunEnds, RunFiles};
ghost use Rattle.run_command.specs.Outputs.{LeavesParts, nothing};
ghost use Rattle.md_top.specs.Stages.{HasStart, IsAboutToRun, IsPrepared, LeavesBegun, Stands};
ghost use Rattle.md_args.specs.Shown.{shown_command, shown_run};
ghost use Rattle.md_args.specs.Commands.{command_of};

use crate::assembling::assemble_source;
use crate::begun_run::BegunRun;
use crate::command_outcome::CommandOutcome;
use crate::converting::convert_file;
use crate::debugging::debug_cart;
use crate::demo::begin_demo;
use crate::laws::runs_begin_once;
use crate::loading::first_machine;
use crate::prepared::{Prepared, Stage};
use crate::reading::{read_cart, read_inputs};
use crate::rolling::roll_cart;
use crate::text::Text;
use md_args::{CommandWords, RunWords, read_words};
use md_outer::{Depot, Sink};
use md_word::NoMemory;
use md_word::clock::LAST_CYCLE;
use run_command::{Course, begin, begin_all, make_buffers};
use std::alloc::Global;

/// Does what the words of the command line ask for, up to the first segment of a run, and takes all memory for it.
///
/// The words are those of `drive`. Here a run reads its files, is refused where it has to be, and begins its
/// outputs, which changes no other file and leaves each output empty or as it was. All that another command asks
/// for is done here: a session of the debugger puts its replies into `out`, and nothing else is put. What a command
/// results in is put by `finish`.
pub fn prepare<'a, D: Depot, S: Sink>(
    alloc: Global,
    words: &'a Vec<String>,
    depot: &mut D,
    out: &mut S,
) -> Prepared<'a>
    ensures prepared { IsPrepared D.observable S.observable (command_of (map string_bytes words.now.items))
        (D.state depot.old) (D.state depot.new) (S.state out.old) (S.state out.new) result }
    ensures files { D.observable → LeavesBegun (command_of (map string_bytes words.now.items)) (D.state depot.old).files (D.state depot.new).files }
{
    match read_words(alloc, words.as_slice()) {
        Ok(Some(command)) => Prepared {
            stage: prepare_command(alloc, command, depot, out),
        },
        Ok(None) => Prepared {
            stage: Stage::Usage,
        },
        Err(_) => Prepared {
            stage: Stage::Memory,
        },
    }
}

/// Does what a command asks for, up to the first segment of a run.
fn prepare_command<'a, D: Depot, S: Sink>(
    alloc: Global,
    command: CommandWords<'a>,
    depot: &mut D,
    out: &mut S,
) -> Stage<'a>
    ensures stands { Stands D.observable S.observable (Some (shown_command command.entry))
        (D.state depot.old) (D.state depot.new) (S.state out.old) (S.state out.new) result }
    ensures files { D.observable → LeavesBegun (Some (shown_command command.entry)) (D.state depot.old).files (D.state depot.new).files }
{
    match command {
        CommandWords::Info(rom) => Stage::Ended(command, show_header(alloc, rom, depot)),
        CommandWords::Run(run) => match begin_run(alloc, &run, depot) {
            Ok(begun) => Stage::Run(run, begun),
            Err(command_outcome) => Stage::Ended(command, command_outcome),
        },
        CommandWords::Demo(demo) => match begin_demo(alloc, &demo) {
            Ok(course) => Stage::Demo(demo, course),
            Err(command_outcome) => Stage::Ended(command, command_outcome),
        },
        CommandWords::Convert(words) => Stage::Ended(command, convert_file(alloc, &words, depot)),
        CommandWords::Assemble(words) => {
            Stage::Ended(command, assemble_source(alloc, &words, depot))
        }
        CommandWords::Debug(words) => Stage::Ended(command, debug_cart(alloc, &words, depot, out)),
        CommandWords::Rollback(words) => Stage::Ended(command, roll_cart(alloc, &words, depot)),
    }
}

/// Reads the header of the cartridge of this name.
fn show_header<D: Depot>(alloc: Global, rom: &str, depot: &mut D) -> CommandOutcome
    ensures cause { InfoEnds D.observable rom.now (D.state depot.old) (D.state depot.new) result }
    ensures files { D.observable → (D.state depot.new).files ≡ (D.state depot.old).files }
{
    let cart = match read_cart(alloc, rom, depot) {
        Ok(cart) => cart,
        Err(command_outcome) => return command_outcome,
    };
    match cart.info(alloc) {
        Ok(lines) => CommandOutcome::Shown(Text::new(lines)),
        Err(_) => CommandOutcome::Memory,
    }
}

/// Finds the start of the run that the words ask for, takes the memory for its state, and begins its outputs.
fn begin_run<D: Depot>(
    alloc: Global,
    run: &RunWords<'_>,
    depot: &mut D,
) -> Result<BegunRun, CommandOutcome>
    ensures about { IfOk result (IsAboutToRun D.observable (shown_run run.now) (D.state depot.old) (D.state depot.new)) }
    ensures cause { IfErr result (RunEnds D.observable (shown_run run.now) (D.state depot.old) (D.state depot.new)) }
    ensures left { IfErr result (λ command_outcome. D.observable → RunFiles (shown_run run.now) (D.state depot.old).files (D.state depot.new).files command_outcome) }
    ensures files { D.observable → LeavesParts (shown_run run.now) (D.state depot.old).files (D.state depot.new).files nothing }
{
    let course = match find_start(alloc, run, depot) {
        Ok(course) => course,
        Err(command_outcome) => return Err(command_outcome),
    };
    let buffers = match make_buffers(alloc, run) {
        Ok(buffers) => buffers,
        Err(NoMemory) => return Err(CommandOutcome::Memory),
    };
    runs_begin_once();
    match begin_all(alloc, run, depot) {
        Ok(outputs) => Ok(BegunRun {
            outputs,
            course,
            buffers,
        }),
        Err(outcome) => Err(CommandOutcome::of_run(outcome)),
    }
}

/// The run at its start: of the cartridge that the words name, with the recording and from the saved state if
/// they name them.
fn find_start<D: Depot>(
    alloc: Global,
    run: &RunWords<'_>,
    depot: &mut D,
) -> Result<Course, CommandOutcome>
    ensures start { IfOk result (HasStart D.observable (shown_run run.now) (D.state depot.old)) }
    ensures cause { IfErr result (RunEnds D.observable (shown_run run.now) (D.state depot.old) (D.state depot.new)) }
    ensures files { D.observable → (D.state depot.new).files ≡ (D.state depot.old).files }
    ensures goes_on { GoesOn (D.state depot.old) (D.state depot.new) }
{
    if run.cycles > LAST_CYCLE {
        return Err(CommandOutcome::TooFar);
    }
    let inputs = match read_inputs(alloc, run, depot) {
        Ok(inputs) => inputs,
        Err(command_outcome) => return Err(command_outcome),
    };
    let machine = match first_machine(alloc, run.load, inputs, depot) {
        Ok(machine) => machine,
        Err(command_outcome) => return Err(command_outcome),
    };
    let from = machine.at();
    if run.cycles <= from {
        return Err(CommandOutcome::Behind(from));
    }
    match begin(alloc, machine) {
        Ok(course) => Ok(course),
        Err(NoMemory) => Err(CommandOutcome::Memory),
    }
}

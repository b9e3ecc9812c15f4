ghost use Rattle.std.specs.Prelude.{◌≡◌, ◌≤◌};
ghost use Rattle.std.specs.Option.{option_copied};
ghost use Rattle.md_args.specs.Shown.{shown_command};
ghost use Rattle.md_args.specs.Files as files;
ghost use Rattle.md_args.specs.Files.{input_of, output_of};
ghost use Rattle.md_args.specs.Words.{end_of, workers_in};

use crate::asm_words::AsmWords;
use crate::convert_words::ConvertWords;
use crate::debug_words::DebugWords;
use crate::demo_words::DemoWords;
use crate::files::{Input, Output};
use crate::rollback_words::RollbackWords;
use crate::run_words::RunWords;

/// What the words of the command line ask for.
#[derive(Clone, Copy)]
pub enum CommandWords<'a> {
    /// The lines of the header of the cartridge of this name.
    Info(&'a str),
    /// A run.
    Run(RunWords<'a>),
    /// A run of a demonstration cartridge.
    Demo(DemoWords),
    /// A file that is made of another one.
    Convert(ConvertWords<'a>),
    /// A source that is assembled.
    Assemble(AsmWords<'a>),
    /// A session of the debugger.
    Debug(DebugWords<'a>),
    /// A session of two players.
    Rollback(RollbackWords<'a>),
}

impl<'a> CommandWords<'a> {
    /// The name of an input. It is None where the command has no such input, or its name is not given.
    pub fn input(&self, which: Input) -> Option<&'a str>
        ensures { option_copied result ≡ input_of (shown_command self.now) which }
    {
        match self {
            CommandWords::Info(rom) => sole_input(rom, which),
            CommandWords::Run(run) => run.input(which),
            CommandWords::Demo(_) => None,
            CommandWords::Convert(words) => sole_input(words.input, which),
            CommandWords::Assemble(words) => sole_input(words.source, which),
            CommandWords::Debug(words) => script_input(words.rom, words.script, which),
            CommandWords::Rollback(words) => script_input(words.rom, words.inputs, which),
        }
    }

    /// The name of an output. It is None where the command has no such output, or it is not asked for.
    pub fn output(&self, which: Output) -> Option<&'a str>
        ensures { option_copied result ≡ output_of (shown_command self.now) which }
    {
        match self {
            CommandWords::Info(_)
            | CommandWords::Demo(_)
            | CommandWords::Debug(_)
            | CommandWords::Rollback(_) => None,
            CommandWords::Run(run) => run.output(which),
            CommandWords::Convert(words) => made_output(words.output, None, which),
            CommandWords::Assemble(words) => made_output(words.output, words.list, which),
        }
    }

    /// The master cycle of the run's end, and 0 where no run is asked for.
    pub fn end(&self) -> u64
        ensures { result ≡ end_of (shown_command self.now) }
    {
        match self {
            CommandWords::Info(_)
            | CommandWords::Convert(_)
            | CommandWords::Assemble(_)
            | CommandWords::Debug(_)
            | CommandWords::Rollback(_) => 0,
            CommandWords::Run(run) => run.cycles,
            CommandWords::Demo(demo) => demo.cycles,
        }
    }

    /// How many workers make it, 1 to 5; 1 where none is asked for.
    pub fn workers(&self) -> u32
        ensures number { result ≡ workers_in (shown_command self.now) }
        ensures some { 1 ≤ result }
        ensures few { result ≤ 5 }
    {
        match self {
            CommandWords::Info(_)
            | CommandWords::Convert(_)
            | CommandWords::Assemble(_)
            | CommandWords::Debug(_)
            | CommandWords::Rollback(_) => 1,
            CommandWords::Run(run) => run.workers,
            CommandWords::Demo(demo) => demo.workers,
        }
    }
}

/// The name of an input of a command that reads one file. It is None for another input.
fn sole_input(name: &str, which: Input) -> Option<&str>
    ensures { option_copied result ≡ files.sole_input name.now which }
{
    match which {
        Input::First => Some(name),
        Input::Recording | Input::State | Input::Script => None,
    }
}

/// The name of an input of a command that reads a cartridge and a script. It is None for another input.
fn script_input<'a>(rom: &'a str, script: &'a str, which: Input) -> Option<&'a str>
    ensures { option_copied result ≡ files.script_input rom.now script.now which }
{
    match which {
        Input::First => Some(rom),
        Input::Script => Some(script),
        Input::Recording | Input::State => None,
    }
}

/// The name of an output of a command that makes one file, and a list of it if that is asked for. It is None for
/// another output.
fn made_output<'a>(target: &'a str, listing: Option<&'a str>, which: Output) -> Option<&'a str>
    ensures { option_copied result ≡ files.made_output target.now (option_copied listing.entry) which }
{
    match which {
        Output::Target => Some(target),
        Output::Listing => listing,
        Output::Frames | Output::Sound | Output::Journal | Output::Save => None,
    }
}

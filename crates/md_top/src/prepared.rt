ghost use Rattle.std.specs.Prelude.{◌≡◌, ◌≤◌};
ghost use Rattle.md_top.specs.Stages.{workers_of};

use crate::begun_run::BegunRun;
use crate::command_outcome::CommandOutcome;
use md_args::{CommandWords, DemoWords, RunWords};
use run_command::Course;

/// A command line up to the first segment of its run: what it came to, or a run that is about to begin.
#[derive(Drop)]
pub struct Prepared<'a> {
    pub(crate) stage: Stage<'a>,
}

/// How far a command line came.
#[derive(Drop)]
pub(crate) enum Stage<'a> {
    /// Its words ask for nothing that there is.
    Usage,
    /// Out of memory for its words.
    Memory,
    /// What it asks for resulted in this.
    Ended(CommandWords<'a>, CommandOutcome),
    /// A run is about to begin.
    Run(RunWords<'a>, BegunRun),
    /// A run of a demonstration cartridge is about to begin.
    Demo(DemoWords, Course),
}

impl<'a> Prepared<'a> {
    /// How many workers make the run that is about to begin, 1 to 5; 1 where none is.
    pub(crate) fn workers(&self) -> u32
        ensures number { result ≡ workers_of self.now }
        ensures some { 1 ≤ result }
        ensures few { result ≤ 5 }
    {
        match &self.stage {
            Stage::Usage | Stage::Memory | Stage::Ended(_, _) => 1,
            Stage::Run(run, _) => run.workers,
            Stage::Demo(demo, _) => demo.workers,
        }
    }
}

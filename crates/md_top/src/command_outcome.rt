ghost use Rattle.std.specs.Prelude.{◌≡◌};
ghost use Rattle.md_top.specs.CommandOutcomes.{of_run, status_of};

use crate::text::Text;
use md_args::{Input, Output};
use md_debug::DebugFault;
use md_rollback::{LineFault, Rolled};
use md_vgm::VgmFault;
use run_command::{RunOutcome, Summary};

/// What a command line results in.
#[derive(Drop)]
pub(crate) enum CommandOutcome {
    /// The lines of a cartridge's header.
    Shown(Text),
    /// The run ended well.
    Done {
        /// The cycle at which it began.
        from: u64,
        /// How many frames were finished.
        frames: u64,
        /// How many accesses were made.
        accesses: u64,
        /// Where the 68000 is halted, the start of what halted it.
        halted: Option<u64>,
    },
    /// The run of a demonstration cartridge ended well.
    DemoDone(Summary),
    /// A file was made of another one, with so many bytes.
    Converted(u64),
    /// Each line of the script was obeyed, and its reply put.
    Played,
    /// Each line of what two players press was obeyed.
    RolledBack(Rolled),
    /// The words ask for nothing that there is.
    Usage,
    /// An input could not be read.
    ReadFault(Input),
    /// An output could not be written.
    WriteFault(Output),
    /// The cartridge's file is too short.
    Short,
    /// The cartridge's file bears no mark.
    NoMark,
    /// The recording's file spells no recording, and is invalid at this offset.
    RecordingInvalid(u64),
    /// The saved state's file keeps no machine, and is invalid at this offset.
    StateInvalid(u64),
    /// The saved state is one of another cartridge.
    OtherCart {
        /// The SHA-256 of the cartridge's image that it keeps.
        kept: [u8; 32],
        /// That of the image of the cartridge that is named.
        given: [u8; 32],
    },
    /// The run's end is not above this cycle, at which it begins.
    Behind(u64),
    /// Out of memory.
    Memory,
    /// Out of memory for a line of the script, after the replies to those before it.
    ScriptMemory,
    /// The run's end lies after the last cycle.
    TooFar,
    /// A reply to a line of the script could not be put.
    ReplyFault,
    /// An input is longer than its limit.
    TooLong(Input),
    /// A line of the script is refused, after the replies to those before it.
    ScriptRefused {
        /// Its number, from 1 on.
        line: u64,
        fault: DebugFault,
    },
    /// A line of a source is refused, for this kind of fault.
    SourceRefused(u32, u8),
    /// The input of a conversion is refused, at an offset in it.
    InputRefused(VgmFault),
    /// A line of what two players press is refused.
    LineRefused {
        /// Its number, from 1 on.
        line: u64,
        fault: LineFault,
    },
}

impl CommandOutcome {
    /// What a run results in, as an outcome.
    pub(crate) fn of_run(outcome: RunOutcome) -> CommandOutcome
        ensures { result ≡ of_run outcome }
    {
        match outcome {
            RunOutcome::Done {
                from,
                frames,
                accesses,
                halted,
            } => CommandOutcome::Done {
                from,
                frames,
                accesses,
                halted,
            },
            RunOutcome::WriteFault(which) => CommandOutcome::WriteFault(which),
            RunOutcome::Memory => CommandOutcome::Memory,
        }
    }

    /// The status that the program ends with, where the output could be put.
    pub(crate) fn status(&self) -> u8
        ensures { result ≡ status_of self.now }
    {
        match self {
            CommandOutcome::Shown(_)
            | CommandOutcome::Done { .. }
            | CommandOutcome::DemoDone(_)
            | CommandOutcome::Converted(_)
            | CommandOutcome::Played
            | CommandOutcome::RolledBack(_) => 0,
            CommandOutcome::Usage => 2,
            CommandOutcome::ReadFault(_) => 3,
            CommandOutcome::WriteFault(_) => 4,
            CommandOutcome::Short | CommandOutcome::NoMark => 5,
            CommandOutcome::RecordingInvalid(_) => 6,
            CommandOutcome::StateInvalid(_) => 7,
            CommandOutcome::OtherCart { .. } => 8,
            CommandOutcome::Behind(_) => 9,
            CommandOutcome::Memory | CommandOutcome::ScriptMemory => 10,
            CommandOutcome::TooFar => 11,
            CommandOutcome::ReplyFault => 13,
            CommandOutcome::TooLong(_) => 14,
            CommandOutcome::ScriptRefused { .. } => 15,
            CommandOutcome::SourceRefused(_, _) => 16,
            CommandOutcome::InputRefused(_) => 17,
            CommandOutcome::LineRefused { .. } => 18,
        }
    }
}

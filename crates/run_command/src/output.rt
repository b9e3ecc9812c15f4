ghost use Rattle.std.specs.Prelude.{◌≡◌, [], OnOk, OnErr, IfOk, IfErr, Some};
ghost use Rattle.md_outer.specs.Outside.{GoesOn};
ghost use Rattle.run_command.specs.Outputs.{Adds, AddsParts, AreBegun, Holds, IsBegun, LeavesParts, nothing, only, with_part};
ghost use Rattle.run_command.specs.RunOutcomes.{IsUnwritten, IsWriteFault};
ghost use Rattle.md_args.specs.Files.{run_output};
ghost use Rattle.md_args.specs.Shown.{shown_run};

use crate::outputs::Outputs;
use crate::run_outcome::RunOutcome;
use md_args::{Output, RunWords};
use md_outer::{Begin, Depot, Failed};
use std::alloc::Global;

/// Begins each output that is asked for. The error names the first that could not be begun, or is out of memory;
/// those before it are begun, and empty.
pub fn begin_all<D: Depot>(
    alloc: Global,
    run: &RunWords<'_>,
    depot: &mut D,
) -> Result<Outputs, RunOutcome>
    ensures begun { IfOk result (AreBegun (shown_run run.now) (D.state depot.new).begun) }
    ensures files { OnOk result (D.observable → Holds (shown_run run.now) (D.state depot.old).files (D.state depot.new).files nothing) }
    ensures err { IfErr result (IsUnwritten (shown_run run.now) (D.state depot.old) (D.state depot.new)) }
    ensures err_files { OnErr result (D.observable → LeavesParts (shown_run run.now) (D.state depot.old).files (D.state depot.new).files nothing) }
    ensures goes_on { GoesOn (D.state depot.old) (D.state depot.new) }
{
    let frames = match begin(alloc, run, Output::Frames, depot) {
        Ok(frames) => frames,
        Err(outcome) => return Err(outcome),
    };
    let sound = match begin(alloc, run, Output::Sound, depot) {
        Ok(sound) => sound,
        Err(outcome) => return Err(outcome),
    };
    let journal = match begin(alloc, run, Output::Journal, depot) {
        Ok(journal) => journal,
        Err(outcome) => return Err(outcome),
    };
    match begin(alloc, run, Output::Save, depot) {
        Ok(save) => Ok(Outputs {
            frames,
            sound,
            journal,
            save,
        }),
        Err(outcome) => Err(outcome),
    }
}

/// Begins an output, if it is asked for.
fn begin<D: Depot>(
    alloc: Global,
    run: &RunWords<'_>,
    which: Output,
    depot: &mut D,
) -> Result<Option<u32>, RunOutcome>
    ensures begun { IfOk result (λ file. IsBegun (D.state depot.new).begun file (run_output (shown_run run.now) which)) }
    ensures files { OnOk result (D.observable → (D.state depot.new).files ≡ with_part (D.state depot.old).files (run_output (shown_run run.now) which) (Some [])) }
    ensures err { IfErr result (IsUnwritten (shown_run run.now) (D.state depot.old) (D.state depot.new)) }
    ensures err_files { OnErr result (D.observable → (D.state depot.new).files ≡ (D.state depot.old).files) }
    ensures goes_on { GoesOn (D.state depot.old) (D.state depot.new) }
{
    match run.output(which) {
        Some(name) => match depot.begin(alloc, name) {
            Ok(file) => Ok(Some(file)),
            Err(Begin::Failed) => Err(RunOutcome::WriteFault(which)),
            Err(Begin::NoMemory) => Err(RunOutcome::Memory),
        },
        None => Ok(None),
    }
}

/// Appends a piece to an output, if it is asked for.
pub(crate) fn append<D: Depot>(
    run: &RunWords<'_>,
    outputs: &Outputs,
    depot: &mut D,
    which: Output,
    piece: &[u8],
) -> Result<(), RunOutcome>
    requires begun { AreBegun (shown_run run.now) (D.state depot.old).begun outputs.now }
    ensures files { OnOk result (D.observable → Adds (shown_run run.now) (D.state depot.old).files (D.state depot.new).files (only which piece.now)) }
    ensures err { IfErr result (IsWriteFault (shown_run run.now) (D.state depot.old) (D.state depot.new)) }
    ensures err_files { OnErr result (D.observable → AddsParts (shown_run run.now) (D.state depot.old).files (D.state depot.new).files (only which piece.now)) }
    ensures goes_on { GoesOn (D.state depot.old) (D.state depot.new) }
{
    match outputs.number(which) {
        Some(file) => match depot.append(file, piece) {
            Ok(()) => Ok(()),
            Err(Failed) => Err(RunOutcome::WriteFault(which)),
        },
        None => Ok(()),
    }
}

/// Appends a segment's pairs to the sound file and its records to the journal.
fn append_records<D: Depot>(
    run: &RunWords<'_>,
    outputs: &Outputs,
    depot: &mut D,
    pairs: &[u8],
    records: &[u8],
) -> Result<(), RunOutcome>
    requires begun { AreBegun (shown_run run.now) (D.state depot.old).begun outputs.now }
    ensures files { OnOk result (D.observable → Adds (shown_run run.now) (D.state depot.old).files (D.state depot.new).files (record nothing { sound = pairs.now; journal = records.now })) }
    ensures err { IfErr result (IsWriteFault (shown_run run.now) (D.state depot.old) (D.state depot.new)) }
    ensures err_files { OnErr result (D.observable → AddsParts (shown_run run.now) (D.state depot.old).files (D.state depot.new).files (record nothing { sound = pairs.now; journal = records.now })) }
    ensures goes_on { GoesOn (D.state depot.old) (D.state depot.new) }
{
    match append(run, outputs, depot, Output::Sound, pairs) {
        Ok(()) => append(run, outputs, depot, Output::Journal, records),
        Err(outcome) => Err(outcome),
    }
}

/// Appends a segment's frames to the frames file, and its pairs and records to the other outputs.
pub(crate) fn append_all<D: Depot>(
    run: &RunWords<'_>,
    outputs: &Outputs,
    depot: &mut D,
    frames: &[u8],
    pairs: &[u8],
    records: &[u8],
) -> Result<(), RunOutcome>
    requires begun { AreBegun (shown_run run.now) (D.state depot.old).begun outputs.now }
    ensures files { OnOk result (D.observable → Adds (shown_run run.now) (D.state depot.old).files (D.state depot.new).files (record nothing { frames = frames.now; sound = pairs.now; journal = records.now })) }
    ensures err { IfErr result (IsWriteFault (shown_run run.now) (D.state depot.old) (D.state depot.new)) }
    ensures err_files { OnErr result (D.observable → AddsParts (shown_run run.now) (D.state depot.old).files (D.state depot.new).files (record nothing { frames = frames.now; sound = pairs.now; journal = records.now })) }
    ensures goes_on { GoesOn (D.state depot.old) (D.state depot.new) }
{
    match append(run, outputs, depot, Output::Frames, frames) {
        Ok(()) => append_records(run, outputs, depot, pairs, records),
        Err(outcome) => Err(outcome),
    }
}

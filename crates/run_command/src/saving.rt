ghost use Rattle.std.specs.Prelude.{◌≡◌, ◌≤◌, OnOk, OnErr, IfOk, IfErr};
ghost use Rattle.md_outer.specs.Outside.{GoesOn};
ghost use Rattle.md_word.specs.Clock.{last_cycle};
ghost use Rattle.run_command.specs.Outputs.{Adds, AddsParts, AreBegun, nothing};
ghost use Rattle.run_command.specs.RunOutcomes.{IsWriteFault};
ghost use Rattle.run_command.specs.Saves.{CanSave};
ghost use Rattle.md_args.specs.Shown.{shown_run};
ghost use Rattle.save_state.specs.States.{state_bytes};

use crate::output::append;
use crate::outputs::Outputs;
use crate::run_outcome::RunOutcome;
use crate::state_buffers::StateBuffers;
use md_args::{Output, RunWords};
use md_machine::Machine;
use md_outer::Depot;
use md_word::NoMemory;
use save_state::{APART, LENGTH, spell};
use sha2::{Digest, Sha256};
use std::alloc::Global;

/// The bytes of a state that are appended together, but for the last.
const PIECE: usize = 65_536;

/// Takes the memory for the state of a run, if it is to be saved.
pub fn make_buffers(alloc: Global, run: &RunWords<'_>) -> Result<Option<StateBuffers>, NoMemory>
    ensures { IfOk result (CanSave (shown_run run.now)) }
{
    match run.save {
        Some(_) => {
            let apart = Vec::with_capacity(alloc, APART)?;
            let bytes = Vec::with_capacity(alloc, LENGTH)?;
            Ok(Some(StateBuffers { apart, bytes }))
        }
        None => Ok(None),
    }
}

/// Writes the state of a machine into the buffers.
fn spell_state(machine: &Machine, buffers: &mut StateBuffers)
    requires { machine.now.at ≤ last_cycle }
    ensures { buffers.new.bytes.items ≡ state_bytes machine.now.at machine.now.console }
{
    let digest = Sha256::digest(machine.cart().bytes());
    buffers.bytes.clear();
    spell(machine, &digest, &mut buffers.apart, &mut buffers.bytes);
}

/// Appends the state of a machine, if it is to be saved.
pub(crate) fn save<D: Depot>(
    run: &RunWords<'_>,
    outputs: &Outputs,
    depot: &mut D,
    machine: &Machine,
    buffers: Option<StateBuffers>,
) -> Result<(), RunOutcome>
    requires near { machine.now.at ≤ last_cycle }
    requires begun { AreBegun (shown_run run.now) (D.state depot.old).begun outputs.now }
    requires buffers { CanSave (shown_run run.now) buffers }
    ensures files { OnOk result (D.observable → Adds (shown_run run.now) (D.state depot.old).files (D.state depot.new).files
        (record nothing { state = state_bytes machine.now.at machine.now.console })) }
    ensures err { IfErr result (IsWriteFault (shown_run run.now) (D.state depot.old) (D.state depot.new)) }
    ensures err_files { OnErr result (D.observable → AddsParts (shown_run run.now) (D.state depot.old).files (D.state depot.new).files
        (record nothing { state = state_bytes machine.now.at machine.now.console })) }
    ensures goes_on { GoesOn (D.state depot.old) (D.state depot.new) }
{
    match buffers {
        Some(buffers) => {
            let mut buffers = buffers;
            spell_state(machine, &mut buffers);
            append_pieces(run, outputs, depot, buffers.bytes.as_slice())
        }
        None => Ok(()),
    }
}

/// Appends bytes to the state's file, a piece after the other.
fn append_pieces<D: Depot>(
    run: &RunWords<'_>,
    outputs: &Outputs,
    depot: &mut D,
    bytes: &[u8],
) -> Result<(), RunOutcome>
    requires begun { AreBegun (shown_run run.now) (D.state depot.old).begun outputs.now }
    ensures files { OnOk result (D.observable → Adds (shown_run run.now) (D.state depot.old).files (D.state depot.new).files (record nothing { state = bytes.now })) }
    ensures err { IfErr result (IsWriteFault (shown_run run.now) (D.state depot.old) (D.state depot.new)) }
    ensures err_files { OnErr result (D.observable → AddsParts (shown_run run.now) (D.state depot.old).files (D.state depot.new).files (record nothing { state = bytes.now })) }
    ensures goes_on { GoesOn (D.state depot.old) (D.state depot.new) }
{
    let mut rest = bytes;
    'pieces: while rest.len() > PIECE {
        let (piece, later) = rest.split_at(PIECE);
        if let Err(outcome) = append(run, outputs, depot, Output::Save, piece) {
            return Err(outcome);
        }
        rest = later;
    }
    append(run, outputs, depot, Output::Save, rest)
}

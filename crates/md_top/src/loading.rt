ghost use Rattle.std.specs.Prelude.{◌≡◌, All, Some, None, IfOk, IfErr};
ghost use Rattle.std.specs.Option.{option_copied};
ghost use Rattle.md_outer.specs.Outside.{GoesOn};
ghost use Rattle.md_pads.specs.Recording.{IsFrame};
ghost use Rattle.run_command.specs.Courses.{IsFresh, start_at};
ghost use Rattle.md_top.specs.Loads.{BeginsWith, IsFound, IsRefused, StateCause};
ghost use Rattle.state_laws.specs.Verdicts.{Keeps};

use crate::command_outcome::CommandOutcome;
use machine_laws::saved;
use md_args::Input;
use md_machine::Machine;
use md_outer::{Depot, Fetch};
use md_word::NoMemory;
use run_command::{Inputs, power_on, shared};
use save_state::{StateFault, read};
use std::alloc::Global;

/// The greatest length of a saved state's file.
const LONGEST_STATE: u64 = 2_097_152;

/// The machine with which a run with these inputs begins: that of the saved state of this name, or
/// where none is named that at power-on.
pub(crate) fn first_machine<D: Depot>(
    alloc: Global,
    load: Option<&str>,
    inputs: Inputs,
    depot: &mut D,
) -> Result<Machine, CommandOutcome>
    requires { All IsFrame inputs.recording.frames }
    ensures begins { IfOk result (λ machine. D.observable → BeginsWith (option_copied load.entry) (D.state depot.old).files inputs (start_at machine)) }
    ensures at { IfOk result (λ machine. option_copied load.entry ≡ None → machine.at ≡ 0) }
    ensures fresh { IfOk result IsFresh }
    ensures err { IfErr result (StateCause D.observable (option_copied load.entry) inputs (D.state depot.old) (D.state depot.new)) }
    ensures files { D.observable → (D.state depot.new).files ≡ (D.state depot.old).files }
    ensures goes_on { GoesOn (D.state depot.old) (D.state depot.new) }
{
    match load {
        Some(name) => load_machine(alloc, name, inputs, depot),
        None => match power_on(alloc, inputs) {
            Ok(machine) => Ok(machine),
            Err(NoMemory) => Err(CommandOutcome::Memory),
        },
    }
}

/// Fetches the saved state of this name and reads it.
fn load_machine<D: Depot>(
    alloc: Global,
    name: &str,
    inputs: Inputs,
    depot: &mut D,
) -> Result<Machine, CommandOutcome>
    requires { All IsFrame inputs.recording.frames }
    ensures begins { IfOk result (λ machine. D.observable → BeginsWith (Some name.now) (D.state depot.old).files inputs (start_at machine)) }
    ensures fresh { IfOk result IsFresh }
    ensures err { IfErr result (StateCause D.observable (Some name.now) inputs (D.state depot.old) (D.state depot.new)) }
    ensures files { D.observable → (D.state depot.new).files ≡ (D.state depot.old).files }
    ensures goes_on { GoesOn (D.state depot.old) (D.state depot.new) }
{
    match depot.fetch(alloc, name, LONGEST_STATE) {
        Ok(bytes) => kept_machine(alloc, bytes.as_slice(), inputs),
        Err(Fetch::Failed) => Err(CommandOutcome::ReadFault(Input::State)),
        Err(Fetch::TooLong) => Err(CommandOutcome::TooLong(Input::State)),
        Err(Fetch::NoMemory) => Err(CommandOutcome::Memory),
    }
}

/// The machine that the bytes of a saved state keep.
fn kept_machine(alloc: Global, bytes: &[u8], inputs: Inputs) -> Result<Machine, CommandOutcome>
    requires { All IsFrame inputs.recording.frames }
    ensures found { IfOk result (λ machine. IsFound inputs bytes.now (Keeps (start_at machine))) }
    ensures fresh { IfOk result IsFresh }
    ensures err { IfErr result (IsRefused inputs bytes.now) }
{
    let (cart, recording) = match shared(alloc, inputs) {
        Ok(both) => both,
        Err(NoMemory) => return Err(CommandOutcome::Memory),
    };
    match read(alloc, bytes, cart, recording) {
        Ok(machine) => {
            saved::states_are_reached(&machine);
            Ok(machine)
        }
        Err(StateFault::Form { place }) => Err(CommandOutcome::StateInvalid(place)),
        Err(StateFault::OtherCart { kept, given }) => Err(CommandOutcome::OtherCart {
            kept,
            given,
        }),
        Err(StateFault::NoMemory) => Err(CommandOutcome::Memory),
    }
}

ghost use Rattle.std.specs.Prelude.{◌≡◌, All, Some, None, IfOk, IfErr};
ghost use Rattle.std.specs.Option.{option_copied};
ghost use Rattle.md_outer.specs.Outside.{GoesOn};
ghost use Rattle.md_pads.specs.Recording.{IsFrame};
ghost use Rattle.md_top.specs.Inputs.{AreInputs, CartCause, InputCause, IsAccepted, RecordingCause, Records, cart_of, refusal_of};
ghost use Rattle.md_args.specs.Shown.{shown_run};

use crate::command_outcome::CommandOutcome;
use md_args::{Input, RunWords};
use md_outer::{Depot, Fetch};
use md_pads::{RecFault, Recording};
use rom_header::{Cart, CartFault, GREATEST};
use run_command::Inputs;
use std::alloc::Global;

/// The greatest length of a recording's file: its head of 14 bytes, and 1,048,576 frames.
const LONGEST_RECORDING: u64 = 4_194_318;

/// Reads the cartridge of a run, and then its recording.
pub(crate) fn read_inputs<D: Depot>(
    alloc: Global,
    run: &RunWords<'_>,
    depot: &mut D,
) -> Result<Inputs, CommandOutcome>
    ensures buttons { IfOk result (λ inputs. All IsFrame inputs.recording.frames) }
    ensures inputs { IfOk result (λ inputs. D.observable → AreInputs (shown_run run.now) (D.state depot.old).files inputs) }
    ensures err { IfErr result (InputCause D.observable (shown_run run.now) (D.state depot.old) (D.state depot.new)) }
    ensures files { D.observable → (D.state depot.new).files ≡ (D.state depot.old).files }
    ensures goes_on { GoesOn (D.state depot.old) (D.state depot.new) }
{
    let cart = match read_cart(alloc, run.rom, depot) {
        Ok(cart) => cart,
        Err(command_outcome) => return Err(command_outcome),
    };
    match read_recording(alloc, run.recording, depot) {
        Ok(recording) => Ok(Inputs {
            cart,
            recording,
            pal: run.pal,
        }),
        Err(command_outcome) => Err(command_outcome),
    }
}

/// Fetches the cartridge of this name and accepts it.
pub(crate) fn read_cart<D: Depot>(
    alloc: Global,
    rom: &str,
    depot: &mut D,
) -> Result<Cart, CommandOutcome>
    ensures cart { IfOk result (λ cart. D.observable → IsAccepted ((D.state depot.old).files rom.now)
        × (cart ≡ cart_of rom.now (D.state depot.old).files)) }
    ensures err { IfErr result (CartCause D.observable rom.now (D.state depot.old) (D.state depot.new)) }
    ensures files { D.observable → (D.state depot.new).files ≡ (D.state depot.old).files }
    ensures goes_on { GoesOn (D.state depot.old) (D.state depot.new) }
{
    match depot.fetch(alloc, rom, GREATEST as u64) {
        Ok(bytes) => match Cart::accept(alloc, bytes) {
            Ok(cart) => Ok(cart),
            Err(fault) => Err(refusal_of(fault)),
        },
        Err(Fetch::Failed) => Err(CommandOutcome::ReadFault(Input::First)),
        Err(Fetch::TooLong) => Err(CommandOutcome::TooLong(Input::First)),
        Err(Fetch::NoMemory) => Err(CommandOutcome::Memory),
    }
}

/// What a command results in whose cartridge is not accepted.
fn refusal_of(fault: CartFault) -> CommandOutcome
    ensures { result ≡ refusal_of fault }
{
    match fault {
        CartFault::Short => CommandOutcome::Short,
        CartFault::Long => CommandOutcome::TooLong(Input::First),
        CartFault::NoMark => CommandOutcome::NoMark,
        CartFault::NoMemory => CommandOutcome::Memory,
    }
}

/// The recording of a run. It has no frames where none is named.
fn read_recording<D: Depot>(
    alloc: Global,
    name: Option<&str>,
    depot: &mut D,
) -> Result<Recording, CommandOutcome>
    ensures buttons { IfOk result (λ recording. All IsFrame recording.frames) }
    ensures recording { IfOk result (λ recording. D.observable → Records (option_copied name.entry) (D.state depot.old).files recording) }
    ensures err { IfErr result (RecordingCause D.observable (option_copied name.entry) (D.state depot.old) (D.state depot.new)) }
    ensures files { D.observable → (D.state depot.new).files ≡ (D.state depot.old).files }
    ensures goes_on { GoesOn (D.state depot.old) (D.state depot.new) }
{
    match name {
        Some(name) => fetch_recording(alloc, name, depot),
        None => Ok(Recording::empty(alloc)),
    }
}

/// Fetches the recording of this name and reads it.
fn fetch_recording<D: Depot>(
    alloc: Global,
    name: &str,
    depot: &mut D,
) -> Result<Recording, CommandOutcome>
    ensures buttons { IfOk result (λ recording. All IsFrame recording.frames) }
    ensures recording { IfOk result (λ recording. D.observable → Records (Some name.now) (D.state depot.old).files recording) }
    ensures err { IfErr result (RecordingCause D.observable (Some name.now) (D.state depot.old) (D.state depot.new)) }
    ensures files { D.observable → (D.state depot.new).files ≡ (D.state depot.old).files }
    ensures goes_on { GoesOn (D.state depot.old) (D.state depot.new) }
{
    match depot.fetch(alloc, name, LONGEST_RECORDING) {
        Ok(bytes) => match Recording::read(alloc, bytes.as_slice()) {
            Ok(recording) => Ok(recording),
            Err(RecFault::Form { place }) => Err(CommandOutcome::RecordingInvalid(place)),
            Err(RecFault::NoMemory) => Err(CommandOutcome::Memory),
        },
        Err(Fetch::Failed) => Err(CommandOutcome::ReadFault(Input::Recording)),
        Err(Fetch::TooLong) => Err(CommandOutcome::TooLong(Input::Recording)),
        Err(Fetch::NoMemory) => Err(CommandOutcome::Memory),
    }
}

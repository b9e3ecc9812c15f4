// Machines that are brought to a cycle.
ghost use Rattle.std.specs.Prelude.{◌≤◌};

use crate::machine::image::{cartridge, shared};
use crate::machine::made::Made;
use md_machine::Machine;
use md_outer::FreeGate;
use md_pads::Recording;
use md_word::region::frame_cycles;
use row_lines::RowError;
use std::alloc::Global;
use std::sync::{Arc, Wait};
use std::thread::Threads;

/// The recording of these bytes, or the empty one of none.
pub(crate) fn recording_of(alloc: Global, pads: &[u8]) -> Result<Arc<Recording>, RowError> {
    if pads.is_empty() {
        return Ok(shared(alloc, Recording::empty(alloc))?);
    }
    match Recording::read(alloc, pads) {
        Ok(recording) => Ok(shared(alloc, recording)?),
        Err(_) => Err(RowError::NoSuchName),
    }
}

/// The machine at power-on with a cartridge of this image and this recording, of a region.
pub(crate) fn power_on(
    alloc: Global,
    image: &[u8],
    pads: &[u8],
    pal: bool,
) -> Result<Machine, RowError> {
    let recording = recording_of(alloc, pads)?;
    let cart = cartridge(alloc, image)?;
    match Machine::power_on(alloc, cart, recording, pal) {
        Ok(machine) => Ok(machine),
        Err(_) => Err(RowError::Memory),
    }
}

/// Brings the machine to a cycle, at most a frame on, and adds what it makes.
pub(crate) fn run_to(
    alloc: Global,
    machine: &mut Machine,
    made: &mut Made,
    to: u32,
) -> Result<(), RowError> {
    let to = u64::from(to);
    let at = machine.at();
    if to <= at || to - at > frame_cycles(machine.pal()) {
        return Err(RowError::NoSuchLine);
    }
    machine.discard();
    machine.alone(to);
    Ok(made.take(machine, alloc)?)
}

/// The same by so many workers.
fn run_by<R: Threads + Wait + Sync>(
    rt: &R,
    alloc: Global,
    machine: &mut Machine,
    made: &mut Made,
    to: u32,
    workers: u32,
) -> Result<(), RowError>
    requires some { 1 ≤ workers }
    requires few { workers ≤ 5 }
{
    let to = u64::from(to);
    let at = machine.at();
    if to <= at || to - at > frame_cycles(machine.pal()) {
        return Err(RowError::NoSuchLine);
    }
    machine.discard();
    machine.segment(rt, to, workers, &FreeGate);
    Ok(made.take(machine, alloc)?)
}

/// Whether a machine at power-on makes this up to a cycle by so many workers.
pub(crate) fn is_made_by<R: Threads + Wait + Sync>(
    rt: &R,
    alloc: Global,
    machine: &mut Machine,
    plain: &Made,
    to: u32,
    workers: u32,
) -> Result<bool, RowError>
    requires some { 1 ≤ workers }
    requires few { workers ≤ 5 }
{
    let mut made = Made::new(alloc);
    run_by(rt, alloc, machine, &mut made, to, workers)?;
    Ok(made.is_alike(plain))
}

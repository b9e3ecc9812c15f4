ghost use Rattle.std.specs.Prelude.{◌≤◌};

use crate::five::{Five, power_on};
use chip_core::{Core, laws};
use chip_run::run_core;
use md_outer::FreeGate;
use row_lines::{RowError, place_of};
use std::alloc::{AllocError, Global};
use std::sync::Wait;
use std::thread::Threads;

/// The five after all events below cycle 40,000, by one chip after the other.
pub fn run_by_least_key(alloc: Global) -> Result<Core<Five>, AllocError> {
    let mut core = power_on(alloc, 5000)?;
    laws::room(&core, 40000);
    laws::run_least(&mut core, 40000);
    Ok(core)
}

/// The same by so many workers.
pub fn run_by_workers<R: Threads + Wait + Sync>(
    rt: &R,
    alloc: Global,
    workers: u32,
) -> Result<Core<Five>, AllocError>
    requires some { 1 ≤ workers }
    requires few { workers ≤ 5 }
{
    let core = power_on(alloc, 5000)?;
    Ok(run_core(rt, core, 40000, workers, &FreeGate))
}

/// The line that the five share.
pub fn line_of_five(alloc: Global, core: &Core<Five>) -> Result<String, RowError> {
    Ok(format!(in alloc; "{}", core.shared().line)?)
}

/// A chip of the five: its number, the cycle of its next event, `sample` or `access`, and the pins that it last saw.
pub fn chip_of(alloc: Global, core: &Core<Five>, number: &str) -> Result<String, RowError> {
    let chip = core
        .chips()
        .get(place_of(number)?)
        .ok_or(RowError::NoSuchName)?;
    let event = if chip.sample { "sample" } else { "access" };
    Ok(format!(in alloc; "{} {} {event} {}", chip.number, chip.cycle, chip.seen)?)
}

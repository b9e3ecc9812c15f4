ghost use Rattle.std.specs.Prelude.{◌≡◌, ℕ, ◌+◌, ◌<◌, ◌≤◌, IsSome};
ghost use Rattle.chip_run.specs.Places.{AllFree, place};
ghost use Rattle.chip_run.specs.Rounds.{IsEnded};

use crate::{Bus, Helds, Named};
use chip_core::ChipSet;
use md_outer::Gate;
use std::sync::Wait;
use std::thread::Threads;
use work_sharing::share;

/// How many of so many workers help.
fn others(workers: u32) -> u8
    requires few { workers ≤ 5 }
    requires some { 1 ≤ workers }
    ensures { result + 1 ≡ workers }
{
    (workers - 1) as u8
}

/// Runs all chips to the run's end with so many workers, of which the caller is the last, the leader.
///
/// Each other one is a helper: a thread of its own that begins with the chip of its number.
pub fn work<
    's,
    C: ChipSet + Send + Sync,
    N: Named + Send + Sync,
    R: Threads + Wait + Sync,
    G: Gate,
>(rt: &'s R, bus: &'s Bus<C, N>, helds: &mut Helds<C, N>, workers: u32, gate: &'s G)
where
    C::Chip: Send,
    C::Shared: Send,
    C::Pins: Send,
    C::Jobs: Send + Sync,
    N::L0: Send + Sync,
    N::L1: Send + Sync,
    N::L2: Send + Sync,
    N::L3: Send + Sync,
    N::L4: Send + Sync,
    requires some { 1 ≤ workers }
    requires few { workers ≤ C.rules.count }
    requires held { (i : ℕ) → i < C.rules.count → IsSome (place helds.old i) }
    requires free { AllFree helds.old }
    requires whole { (N.L0.parts ≡ 1) × (N.L1.parts ≡ 1) × (N.L2.parts ≡ 1) × (N.L3.parts ≡ 1) × (N.L4.parts ≡ 1) }
    ensures held { (i : ℕ) → i < C.rules.count → IsSome (place helds.new i) }
    ensures free { AllFree helds.new }
    ensures ended { IsEnded C.rules N.end helds.new }
{
    share(rt, bus, helds, others(workers), gate);
    bus.serve(rt, helds, gate);
}

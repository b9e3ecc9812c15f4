ghost use Rattle.std.specs.Prelude.{◌≡◌, ◌≤◌, []};
ghost use Rattle.md_word.specs.Clock.{cycle_limit};
ghost use Rattle.chip_core.specs.Cores.{IsCore, machine_of};
ghost use Rattle.chip_core.specs.Limits.{all_moves_left};
ghost use Rattle.chip_core.specs.Machines.{IsRunTo};

use crate::{Blanks, Bus, Run, RunName, gather, work};
use chip_core::{ChipSet, Core, Event};
use md_outer::Gate;
use std::marker::Brand;
use std::sync::Wait;
use std::sync::ledger::Ledger;
use std::thread::Threads;

/// Runs a core under a name for the run and one for each ledger.
fn run_named<
    C: ChipSet + Send + Sync,
    N: RunName + Send + Sync,
    L0: Ledger + Send + Sync,
    L1: Ledger + Send + Sync,
    L2: Ledger + Send + Sync,
    L3: Ledger + Send + Sync,
    L4: Ledger + Send + Sync,
    R: Threads + Wait + Sync,
    G: Gate,
>(rt: &R, core: Core<C>, t: u64, workers: u32, gate: &G, blanks: Blanks) -> Core<C>
where
    C::Chip: Send,
    C::Shared: Send,
    C::Pins: Send,
    C::Jobs: Send + Sync,
    requires base { C.core_of N.base ≡ record core { room = 0 } }
    requires end { N.end ≡ t }
    requires places { N.room ≡ core.room }
    requires time { t ≤ cycle_limit }
    requires empty { core.journal ≡ [] }
    requires room { all_moves_left C.rules t (machine_of C.rules core) ≤ core.room }
    requires names { (blanks.l0.name ≡ L0.name) × (blanks.l1.name ≡ L1.name) × (blanks.l2.name ≡ L2.name) × (blanks.l3.name ≡ L3.name) × (blanks.l4.name ≡ L4.name) }
    requires parts { (blanks.l0.parts ≡ L0.parts) × (blanks.l1.parts ≡ L1.parts) × (blanks.l2.parts ≡ L2.parts) × (blanks.l3.parts ≡ L3.parts) × (blanks.l4.parts ≡ L4.parts) }
    requires whole { (L0.parts ≡ 1) × (L1.parts ≡ 1) × (L2.parts ≡ 1) × (L3.parts ≡ 1) × (L4.parts ≡ 1) }
    requires some { 1 ≤ workers }
    requires few { workers ≤ C.rules.count }
    ensures run { IsRunTo C.rules (machine_of C.rules core) t (machine_of C.rules result) result.journal }
    ensures room { result.room ≡ core.room }
{
    let (bus, all) = Bus::<C, Run<N, L0, L1, L2, L3, L4>>::make(core, t, blanks);
    let mut helds = all;
    work(rt, &bus, &mut helds, workers, gate);
    gather(bus, helds)
}

/// Runs the core to cycle `t` with so many workers, 1 to the count of its chips.
///
/// After it, all events below `t` and no other have been made, and the journal has their accesses and the
/// room that it had. So it is whatever threads there are and however they take turns.
pub fn run_core<C: ChipSet + Send + Sync, R: Threads + Wait + Sync, G: Gate>(
    rt: &R,
    core: Core<C>,
    t: u64,
    workers: u32,
    gate: &G,
) -> Core<C>
where
    C::Chip: Send,
    C::Shared: Send,
    C::Pins: Send,
    C::Jobs: Send + Sync,
    requires time { t ≤ cycle_limit }
    requires empty { core.journal ≡ [] }
    requires room { all_moves_left C.rules t (machine_of C.rules core) ≤ core.room }
    requires some { 1 ≤ workers }
    requires few { workers ≤ C.rules.count }
    ensures run { IsRunTo C.rules (machine_of C.rules core) t (machine_of C.rules result) result.journal }
    ensures room { result.room ≡ core.room }
    ensures core { IsCore C.rules C.chip_ok C.shared_ok result }
{
    let _known = core.enabled(t, Event::Announce(0));
    let blanks = Blanks::new();
    let after = run_named::<C, Brand, Brand, Brand, Brand, Brand, Brand, R, G>(
        rt, core, t, workers, gate, blanks,
    );
    let _known = after.enabled(t, Event::Announce(0));
    after
}

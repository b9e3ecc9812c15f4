ghost use Rattle.std.specs.Prelude.{◌≡◌, ◌≤◌, []};
ghost use Rattle.md_word.specs.Clock.{cycle_limit};
ghost use Rattle.chip_core.specs.Cores.{machine_of};
ghost use Rattle.chip_core.specs.Limits.{all_moves_left};
ghost use Rattle.chip_run.specs.Places.{AllFree};

use chip_core::{ChipSet, Core, Event};
use chip_run::{Blanks, Bus, Helds, Locked, Named, Round, Run, RunName, Turn, laws};
use core_rows::five::{at_access, key, power_on};
use md_outer::FreeGate;
use md_word::Key;
use std::marker::Brand;
use std::sync::Wait;
use std::sync::ledger::Ledger;
use std::test::Fail;

// What the first section of a run on chip 0 answers, and the bound that it leaves.
fn first_section<
    C: ChipSet,
    N: RunName,
    L0: Ledger,
    L1: Ledger,
    L2: Ledger,
    L3: Ledger,
    L4: Ledger,
>(core: Core<C>, t: u64, blanks: Blanks) -> Option<(Turn, Option<Key>)>
    requires base { C.core_of N.base ≡ record core { room = 0 } }
    requires end { N.end ≡ t }
    requires places { N.room ≡ core.room }
    requires time { t ≤ cycle_limit }
    requires empty { core.journal ≡ [] }
    requires room { all_moves_left C.rules t (machine_of C.rules core) ≤ core.room }
    requires names { (blanks.l0.name ≡ L0.name) × (blanks.l1.name ≡ L1.name) × (blanks.l2.name ≡ L2.name) × (blanks.l3.name ≡ L3.name) × (blanks.l4.name ≡ L4.name) }
    requires parts { (blanks.l0.parts ≡ L0.parts) × (blanks.l1.parts ≡ L1.parts) × (blanks.l2.parts ≡ L2.parts) × (blanks.l3.parts ≡ L3.parts) × (blanks.l4.parts ≡ L4.parts) }
    requires whole { (L0.parts ≡ 1) × (L1.parts ≡ 1) × (L2.parts ≡ 1) × (L3.parts ≡ 1) × (L4.parts ≡ 1) }
{
    let (locked, all) = Locked::<C, Run<N, L0, L1, L2, L3, L4>>::make(core, t, blanks);
    let mut locked = locked;
    let mut helds = all;
    answer_of(&mut locked, &mut helds)
}

// What a section on chip 0 answers, and the bound that it leaves.
fn answer_of<C: ChipSet, N: Named>(
    locked: &mut Locked<C, N>,
    helds: &mut Helds<C, N>,
) -> Option<(Turn, Option<Key>)>
    requires free { AllFree helds.old }
    requires whole { (N.L0.parts ≡ 1) × (N.L1.parts ≡ 1) × (N.L2.parts ≡ 1) × (N.L3.parts ≡ 1) × (N.L4.parts ≡ 1) }
{
    if helds.has(0) {
        let turn = laws::section(locked, helds, 0);
        laws::standing(locked);
        return Some((turn, locked.bound(0)));
    }
    None
}

// How many moves each chip makes in a run on one thread, if it ends within 1,000 answers.
fn moves_alone<
    C: ChipSet,
    N: RunName,
    L0: Ledger,
    L1: Ledger,
    L2: Ledger,
    L3: Ledger,
    L4: Ledger,
    R: Wait,
>(rt: &R, core: Core<C>, t: u64, blanks: Blanks) -> Option<[u32; 5]>
    requires base { C.core_of N.base ≡ record core { room = 0 } }
    requires end { N.end ≡ t }
    requires places { N.room ≡ core.room }
    requires time { t ≤ cycle_limit }
    requires empty { core.journal ≡ [] }
    requires room { all_moves_left C.rules t (machine_of C.rules core) ≤ core.room }
    requires names { (blanks.l0.name ≡ L0.name) × (blanks.l1.name ≡ L1.name) × (blanks.l2.name ≡ L2.name) × (blanks.l3.name ≡ L3.name) × (blanks.l4.name ≡ L4.name) }
    requires parts { (blanks.l0.parts ≡ L0.parts) × (blanks.l1.parts ≡ L1.parts) × (blanks.l2.parts ≡ L2.parts) × (blanks.l3.parts ≡ L3.parts) × (blanks.l4.parts ≡ L4.parts) }
    requires whole { (L0.parts ≡ 1) × (L1.parts ≡ 1) × (L2.parts ≡ 1) × (L3.parts ≡ 1) × (L4.parts ≡ 1) }
{
    let (bus, all) = Bus::<C, Run<N, L0, L1, L2, L3, L4>>::make(core, t, blanks);
    let mut helds = all;
    count_moves(rt, &bus, &mut helds)
}

// How many moves each chip makes, if all are finished within 1,000 answers.
fn count_moves<C: ChipSet, N: Named, R: Wait>(
    rt: &R,
    bus: &Bus<C, N>,
    helds: &mut Helds<C, N>,
) -> Option<[u32; 5]>
    requires free { AllFree helds.old }
    requires whole { (N.L0.parts ≡ 1) × (N.L1.parts ≡ 1) × (N.L2.parts ≡ 1) × (N.L3.parts ≡ 1) × (N.L4.parts ≡ 1) }
{
    let mut moves = [0u32; 5];
    for _answer in 0..1000 {
        match bus.wait_turn(rt, helds, &FreeGate) {
            Round::Moved(chip) => {
                if let Some(count) = moves.get_mut(usize::from(chip)) {
                    *count = count.wrapping_add(1);
                }
            }
            Round::Finished => return Some(moves),
        }
    }
    None
}

fn first_turn<C: ChipSet>(core: Core<C>, t: u64) -> Option<(Turn, Option<Key>)>
    requires time { t ≤ cycle_limit }
    requires empty { core.journal ≡ [] }
    requires room { all_moves_left C.rules t (machine_of C.rules core) ≤ core.room }
{
    let _known = core.enabled(t, Event::Announce(0));
    let blanks = Blanks::new();
    first_section::<C, Brand, Brand, Brand, Brand, Brand, Brand>(core, t, blanks)
}

fn moves_to<C: ChipSet, R: Wait>(rt: &R, core: Core<C>, t: u64) -> Option<[u32; 5]>
    requires time { t ≤ cycle_limit }
    requires empty { core.journal ≡ [] }
    requires room { all_moves_left C.rules t (machine_of C.rules core) ≤ core.room }
{
    let _known = core.enabled(t, Event::Announce(0));
    let blanks = Blanks::new();
    moves_alone::<C, Brand, Brand, Brand, Brand, Brand, Brand, R>(rt, core, t, blanks)
}

// The second chip's bound (45, 1) is below the first chip's key (70, 0), which it announces.
#[test]
fn an_access_waits_for_the_bound_of_another_chip(rt: HostRuntime) -> Result<(), Fail> {
    let core = at_access(rt.alloc(), 45, 4)?;
    let blocked = Turn::Blocked {
        other: 1,
        bound: key(1, 45),
    };
    assert!(rt; first_turn(core, 100) == Some((blocked, Some(key(0, 70)))));
    Ok(())
}

// The bound (70, 1) is above the key (70, 0); the access leaves a bound one gap of 28 cycles on.
#[test]
fn an_access_below_all_bounds_is_made(rt: HostRuntime) -> Result<(), Fail> {
    let core = at_access(rt.alloc(), 70, 4)?;
    assert!(rt; first_turn(core, 100) == Some((Turn::Moved, Some(key(0, 98)))));
    Ok(())
}

#[test]
fn an_access_at_the_end_is_not_made(rt: HostRuntime) -> Result<(), Fail> {
    let core = at_access(rt.alloc(), 90, 4)?;
    assert!(rt; first_turn(core, 70) == Some((Turn::Finished, Some(key(0, 70)))));
    Ok(())
}

// Below cycle 1,000 the first two sample each 70 and 45 cycles, up to (0, 2), where the third makes its one
// access, and then, with one lease each, up to the end. The last two have no event there.
#[test]
fn a_run_of_all_chips_ends_on_one_thread(rt: HostRuntime) -> Result<(), Fail> {
    let core = power_on(rt.alloc(), 100)?;
    assert!(rt; moves_to(&rt, core, 1000) == Some([2, 2, 1, 0, 0]));
    Ok(())
}

ghost use Rattle.std.specs.Prelude.{◌≡◌, ◌+◌, ◌<◌, ◌≤◌, IfSome, Some, [], ◌∷◌, vec_capacity};
ghost use Rattle.md_word.specs.Clock.{cycle_limit};
ghost use Rattle.chip_core.specs.Cores.{machine_of};
ghost use Rattle.chip_core.specs.Limits.{all_moves_left};
ghost use Rattle.chip_run.specs.Making.{AreFirst, Remains, first_held};
ghost use Rattle.chip_run.specs.Places.{AllFree, HasNumber};

use crate::{Blanks, Bus, Due, Held, Helds, Locked, Named, Parts};
use chip_core::{ChipSet, Core};
use std::marker::PhantomData;
use std::sync::ledger::{Ledger, Share};

/// Takes the chip of this number, the last one that is left, out of the list.
fn hold<C: ChipSet, N: Named, L: Ledger>(
    chips: &mut Vec<C::Chip>,
    share: Share<L>,
    number: u8,
) -> Option<Held<C, N, L>>
    requires left { Remains C.rules (C.core_of N.base) (number + 1) chips.old.items }
    requires parts { share.parts ≡ 1 }
    requires amount { share.amount ≡ 0 }
    ensures left { Remains C.rules (C.core_of N.base) number chips.new.items }
    ensures capacity { vec_capacity chips.new ≡ vec_capacity chips.old }
    ensures held { number < C.rules.count → result ≡ Some (first_held C.rules (C.core_of N.base) number) }
    ensures number { HasNumber number result }
    ensures free { IfSome result (λ h. h.due ≡ Due.Nothing) }
{
    if chips.len() <= number as usize {
        return None;
    }
    let Some(chip) = chips.pop() else {
        unreachable!()
    };
    Some(Held {
        number,
        chip,
        due: Due::Nothing,
        share,
        ahead: 0,
        passes: 0,
        run: PhantomData,
    })
}

impl<C: ChipSet, N: Named> Locked<C, N> {
    /// What lies behind the lock at the start of a run of this core to cycle `t`, and all its chips,
    /// of which no work is due.
    ///
    /// The base is the core's list of numbers, and no copy of the core is made.
    pub fn make(core: Core<C>, t: u64, blanks: Blanks) -> (Self, Helds<C, N>)
        requires base { C.core_of N.base ≡ record core { room = 0 } }
        requires end { N.end ≡ t }
        requires places { N.room ≡ core.room }
        requires time { t ≤ cycle_limit }
        requires empty { core.journal ≡ [] }
        requires room { all_moves_left C.rules t (machine_of C.rules core) ≤ core.room }
        requires names { (blanks.l0.name ≡ N.L0.name) × (blanks.l1.name ≡ N.L1.name) × (blanks.l2.name ≡ N.L2.name) × (blanks.l3.name ≡ N.L3.name) × (blanks.l4.name ≡ N.L4.name) }
        requires parts { (blanks.l0.parts ≡ N.L0.parts) × (blanks.l1.parts ≡ N.L1.parts) × (blanks.l2.parts ≡ N.L2.parts) × (blanks.l3.parts ≡ N.L3.parts) × (blanks.l4.parts ≡ N.L4.parts) }
        requires whole { (N.L0.parts ≡ 1) × (N.L1.parts ≡ 1) × (N.L2.parts ≡ 1) × (N.L3.parts ≡ 1) × (N.L4.parts ≡ 1) }
        ensures parts { result.0.parts ≡ record { end = t; shared = core.shared; bounds = core.bounds; journal = core.journal; room = core.room } }
        ensures counts { result.0.counts ≡ 0 ∷ 0 ∷ 0 ∷ 0 ∷ 0 ∷ [] }
        ensures held { AreFirst C.rules (C.core_of N.base) result.1 }
        ensures free { AllFree result.1 }
    {
        let (shared, all, bounds, journal) = core.into_parts();
        let mut chips = all;
        let (book0, share0) = blanks.l0.open::<N::L0>();
        let (book1, share1) = blanks.l1.open::<N::L1>();
        let (book2, share2) = blanks.l2.open::<N::L2>();
        let (book3, share3) = blanks.l3.open::<N::L3>();
        let (book4, share4) = blanks.l4.open::<N::L4>();
        let place4 = hold(&mut chips, share4, 4);
        let place3 = hold(&mut chips, share3, 3);
        let place2 = hold(&mut chips, share2, 2);
        let place1 = hold(&mut chips, share1, 1);
        let place0 = hold(&mut chips, share0, 0);
        let parts = Parts {
            end: t,
            shared,
            bounds,
            journal,
        };
        let locked = Locked {
            parts,
            emptied: chips,
            book0,
            book1,
            book2,
            book3,
            book4,
            run: PhantomData,
        };
        (
            locked,
            Helds {
                place0,
                place1,
                place2,
                place3,
                place4,
            },
        )
    }
}

impl<C: ChipSet, N: Named> Bus<C, N> {
    /// The bus of a run of this core to cycle `t`, and all its chips, of which no work is due.
    ///
    /// The base is the core's list of numbers, and no copy of the core is made.
    pub fn make(core: Core<C>, t: u64, blanks: Blanks) -> (Self, Helds<C, N>)
        requires base { C.core_of N.base ≡ record core { room = 0 } }
        requires end { N.end ≡ t }
        requires places { N.room ≡ core.room }
        requires time { t ≤ cycle_limit }
        requires empty { core.journal ≡ [] }
        requires room { all_moves_left C.rules t (machine_of C.rules core) ≤ core.room }
        requires names { (blanks.l0.name ≡ N.L0.name) × (blanks.l1.name ≡ N.L1.name) × (blanks.l2.name ≡ N.L2.name) × (blanks.l3.name ≡ N.L3.name) × (blanks.l4.name ≡ N.L4.name) }
        requires parts { (blanks.l0.parts ≡ N.L0.parts) × (blanks.l1.parts ≡ N.L1.parts) × (blanks.l2.parts ≡ N.L2.parts) × (blanks.l3.parts ≡ N.L3.parts) × (blanks.l4.parts ≡ N.L4.parts) }
        requires whole { (N.L0.parts ≡ 1) × (N.L1.parts ≡ 1) × (N.L2.parts ≡ 1) × (N.L3.parts ≡ 1) × (N.L4.parts ≡ 1) }
        ensures held { AreFirst C.rules (C.core_of N.base) result.1 }
        ensures free { AllFree result.1 }
    {
        let jobs = C::jobs(core.chips());
        let (locked, helds) = Locked::make(core, t, blanks);
        (Bus::over(locked, t, jobs), helds)
    }
}

ghost use Rattle.std.specs.Prelude.{◌≡◌, ◌≤◌, [], ◌∷◌, IfSome, length, slice_get, vec_capacity};
ghost use Rattle.chip_run.specs.Locked.{IsLocked, LockedValue};
ghost use Rattle.chip_run.specs.Steps.{IsLeastBound};

use crate::{Named, Parts};
use chip_core::{ChipSet, least_of};
use md_word::Key;
use std::marker::{Model, PhantomData};
use std::sync::ledger::Book;

/// The value behind the bus lock: what the chips share, and an event count for each chip of the moves that
/// it made.
#[derive(Drop)]
pub struct Locked<C: ChipSet, N: Named> {
    pub(crate) parts: Parts<C>,
    // The list that the chips were taken from, with room for all of them.
    pub(crate) emptied: Vec<C::Chip>,
    pub(crate) book0: Book<N::L0>,
    pub(crate) book1: Book<N::L1>,
    pub(crate) book2: Book<N::L2>,
    pub(crate) book3: Book<N::L3>,
    pub(crate) book4: Book<N::L4>,
    pub(crate) run: PhantomData<N>,
}

impl<C: ChipSet, N: Named> Model for Locked<C, N> {
    ghost Value = { LockedValue C.Shared };

    ghost view = { λ l. record {
      parts = l.parts;
      counts = l.book0.total ∷ l.book1.total ∷ l.book2.total ∷ l.book3.total ∷ l.book4.total ∷ [];
    } };

    ghost invariant = { λ l. IsLocked C.rules C.chip_ok C.shared_ok (C.core_of N.base) N.end l.parts
        (l.book0.total ∷ l.book1.total ∷ l.book2.total ∷ l.book3.total ∷ l.book4.total ∷ [])
        × (l.emptied.items ≡ []) × (C.rules.count ≤ vec_capacity l.emptied) × (l.parts.room ≡ N.room) };
}

impl<C: ChipSet, N: Named> Locked<C, N> {
    /// The cycle that the run goes to.
    pub(crate) fn end(&self) -> u64
        ensures value { result ≡ self.now.parts.end }
        ensures counts { length self.now.counts ≡ 5 }
        ensures end { self.now.parts.end ≡ N.end }
    {
        self.parts.end
    }

    /// The number of the chip of least bound, where that bound lies below the run's end.
    pub(crate) fn first(&self) -> Option<u8>
        ensures { IfSome result (λ i. IsLeastBound self.now.parts i) }
    {
        let chip = least_of::<C>(&self.parts.bounds);
        if self.parts.bounds[chip as usize].cycle < self.parts.end {
            Some(chip)
        } else {
            None
        }
    }

    /// The bound of the chip of this number; none exactly where the set has no such chip.
    pub fn bound(&self, chip: u8) -> Option<Key>
        ensures { result ≡ slice_get self.now.parts.bounds chip }
    {
        self.parts.bounds.get(chip as usize).copied()
    }
}

ghost use Rattle.std.specs.Prelude.{◌≡◌, ◌<◌, [], slice_set};
ghost use Rattle.std.specs.Fn.{FnOnceReturnsAtMut};
ghost use Rattle.chip_core.specs.Cores.{CoreValue, IsCore, IsStandIn, chip_in};

use crate::{ChipSet, Core};
use md_word::Entry;

impl<C: ChipSet> Core<C> {
    /// The chips, each at the place of its number.
    pub fn chips(&self) -> &[C::Chip]
        ensures value { result.now ≡ self.now.chips }
        ensures core { IsCore C.rules C.chip_ok C.shared_ok self.now }
    {
        self.chips.as_slice()
    }

    /// What the chips share.
    pub fn shared(&self) -> &C::Shared
        ensures { result.now ≡ self.now.shared }
    {
        &self.shared
    }

    /// The entries of the journal.
    pub fn journal(&self) -> &[Entry]
        ensures { result.now ≡ self.now.journal }
    {
        self.journal.as_slice()
    }

    /// Lets the entries of the journal go; the room for them stays.
    pub fn clear_journal(&mut self)
        ensures { self.new ≡ record self.old { journal = [] } }
    {
        self.journal.clear();
    }

    /// Changes a chip in what is no part of its next event.
    pub fn change<F: FnOnce(&mut C::Chip)>(&mut self, number: usize, change: F)
        requires number { number < C.rules.count }
        requires callable { F.IsAlwaysCallable change }
        requires kept { (chip : C.Chip) → FnOnceReturnsAtMut F.FnOnce change (chip_in C.rules self.old.chips number) tt chip
            → IsStandIn C.rules C.chip_ok (chip_in C.rules self.old.chips number) chip }
        ensures { (chip : C.Chip) × FnOnceReturnsAtMut F.FnOnce change (chip_in C.rules self.old.chips number) tt chip
            × (self.new ≡ record self.old { chips = slice_set self.old.chips number chip }) }
    {
        change(&mut self.chips[number]);
    }
}

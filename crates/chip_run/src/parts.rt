ghost use Rattle.std.specs.Prelude.{◌≡◌, ◌<◌, ◌≤◌, true, false, length, vec_capacity};
ghost use Rattle.md_word.specs.Clock.{cycle_limit};
ghost use Rattle.chip_core.specs.Cores.{bound_in};
ghost use Rattle.chip_run.specs.Parts.{PartsValue};
ghost use Rattle.chip_run.specs.Steps.{HasLease, HasPlaceFor, HasTurn, IsAccess, IsStep, announced};

use crate::stepped::Stepped;
use chip_core::{ChipSet, find_other, limit_of};
use md_word::{Entry, Key, Next};
use std::marker::Model;

/// What the chips of a run share, with their bounds, the journal of their accesses, and the cycle
/// that the run goes to.
#[derive(Drop)]
pub struct Parts<C: ChipSet> {
    pub(crate) end: u64,
    pub(crate) shared: C::Shared,
    pub(crate) bounds: Vec<Key>,
    pub(crate) journal: Vec<Entry>,
}

impl<C: ChipSet> Model for Parts<C> {
    ghost Value = { PartsValue C.Shared };

    ghost view = { λ p. record {
      end = p.end;
      shared = p.shared;
      bounds = p.bounds.items;
      journal = p.journal.items;
      room = vec_capacity p.journal;
    } };
}

/// Whether the chip of this number has announced its next event already.
#[inline(always)]
fn is_reported(bounds: &[Key], number: u8, key: &Key) -> bool
    requires { number < length bounds.now }
    ensures { result ≡ true → bound_in bounds.now number ≡ key.now }
{
    let bound = &bounds[number as usize];
    bound.cycle == key.cycle && bound.chip == key.chip
}

/// A bound becomes this key. Field by field: its padding is not copied.
#[inline(always)]
fn set_bound(bound: &mut Key, key: &Key)
    ensures { bound.new ≡ key.now }
{
    bound.cycle = key.cycle;
    bound.chip = key.chip;
}

impl<C: ChipSet> Parts<C> {
    /// Announces the chip.
    #[inline(always)]
    pub(crate) fn announce(&mut self, chip: &C::Chip, number: u8)
        requires bounds { length self.old.bounds ≡ C.rules.count }
        requires number { number < C.rules.count }
        ensures { self.new ≡ record self.old { bounds = announced C.rules number chip.now self.old.bounds } }
    {
        let next = C::next(chip);
        set_bound(&mut self.bounds[number as usize], &next.key);
    }

    /// Announces the chip, and then makes the locked part of its access, or reads the pins of its sample, where
    /// that is its turn.
    pub(crate) fn step(&mut self, chip: &mut C::Chip, number: u8) -> Stepped<C::Pins>
        requires bounds { length self.old.bounds ≡ C.rules.count }
        requires number { number < C.rules.count }
        requires time { self.old.end ≤ cycle_limit }
        requires place { HasPlaceFor C.rules self.old number chip.old }
        ensures { IsStep C.rules self.old number chip.old result self.new chip.new }
    {
        let next = C::next(chip);
        let i = number as usize;
        self.bounds[i] = next.key;
        if next.key.cycle >= self.end {
            return Stepped::Finished;
        }
        if let Some(other) = find_other::<C>(&next, &self.bounds, number) {
            return Stepped::Blocked {
                other,
                bound: self.bounds[other as usize],
            };
        }
        self.bounds[i] = Key {
            cycle: next.key.cycle + C::gap(number),
            chip: number,
        };
        if next.sample {
            return Stepped::Sampled {
                pins: C::pins(&self.shared, number),
                end: limit_of::<C>(&self.bounds, self.end, number),
            };
        }
        let entry = C::perform(chip, &mut self.shared);
        self.journal.push_reserved(entry);
        Stepped::Performed
    }

    /// Announces the chip, whose bound is the least, and then makes the whole of its access, where it had
    /// announced that before; answers whether it did.
    #[inline(always)]
    pub(crate) fn access(&mut self, chip: &mut C::Chip, number: u8) -> bool
        requires bounds { length self.old.bounds ≡ C.rules.count }
        requires number { number < C.rules.count }
        requires time { self.old.end ≤ cycle_limit }
        requires place { HasPlaceFor C.rules self.old number chip.old }
        requires shared { C.shared_ok self.old.shared }
        requires turn { bound_in self.old.bounds number ≡ (C.rules.next chip.old).key → HasTurn C.rules self.old number chip.old }
        ensures made { result ≡ true → IsAccess C.rules self.old number chip.old self.new chip.new }
        ensures bounds { result ≡ false → self.new ≡ record self.old { bounds = announced C.rules number chip.old self.old.bounds } }
        ensures chip { result ≡ false → chip.new ≡ chip.old }
    {
        let next = C::next(chip);
        let i = number as usize;
        let reported = is_reported(&self.bounds, number, &next.key);
        set_bound(&mut self.bounds[i], &next.key);
        if !reported {
            return false;
        }
        if next.sample {
            return false;
        }
        let raised = Key {
            cycle: next.key.cycle + C::gap(number),
            chip: number,
        };
        set_bound(&mut self.bounds[i], &raised);
        let entry = C::access(chip, &mut self.shared);
        self.journal.push_reserved(entry);
        true
    }

    /// The input pins of the chip of this number.
    #[inline(always)]
    pub(crate) fn pins(&self, number: u8) -> C::Pins
        ensures { result ≡ C.rules.pins self.now.shared number }
    {
        C::pins(&self.shared, number)
    }

    /// Announces the chip, and raises its bound where its next event is a sample before the end of its lease;
    /// answers that end.
    #[inline(always)]
    pub(crate) fn lease(&mut self, chip: &C::Chip, number: u8) -> Option<Key>
        requires bounds { length self.old.bounds ≡ C.rules.count }
        requires number { number < C.rules.count }
        requires time { self.old.end ≤ cycle_limit }
        ensures { HasLease C.rules self.old number chip.now result self.new }
    {
        let next = C::next(chip);
        let i = number as usize;
        set_bound(&mut self.bounds[i], &next.key);
        if !next.sample {
            return None;
        }
        let end = limit_of::<C>(&self.bounds, self.end, number);
        if !next.key.is_below(&end) {
            return None;
        }
        let raised = Key {
            cycle: next.key.cycle + C::gap(number),
            chip: number,
        };
        set_bound(&mut self.bounds[i], &raised);
        Some(end)
    }
}

ghost use Rattle.std.specs.Prelude.{◌≡◌, ◌<◌, ◌≤◌, ◌↔◌, IsTrue, vec_capacity, IfNone, IfSome, MatchOption};
ghost use Rattle.md_word.specs.Clock.{cycle_limit};
ghost use Rattle.chip_core.specs.Cores.{CoreValue, IsCore, IsShaped, ReachesEnd, machine_of, seen};
ghost use Rattle.chip_core.specs.Events.{IsChosen, IsEnabled};
ghost use Rattle.chip_core.specs.Looks.{least_lagging};
ghost use Rattle.chip_core.specs.Machines.{IsQuiet, IsShort, key_of, mover};

use crate::look::{
    Found, event_of, is_any_short, is_below_others, is_below_writers, know_chips, look,
};
use crate::{ChipSet, Event};
use md_word::{Entry, Key};
use std::marker::Model;

mod parts;
mod resting;
pub(crate) mod run_least;
mod steps;

/// Chips that share a state, each at its next event, with a bound per chip and the journal of
/// their accesses.
///
/// A chip's bound is a key that its next event does not lie below: while it holds, the others
/// know that nothing of this chip comes before it.
#[derive(Drop)]
pub struct Core<C: ChipSet> {
    shared: C::Shared,
    chips: Vec<C::Chip>,
    bounds: Vec<Key>,
    journal: Vec<Entry>,
}

impl<C: ChipSet> Model for Core<C> {
    ghost Value = { CoreValue C.Chip C.Shared };

    ghost view = { λ c. record {
      shared = c.shared;
      chips = c.chips.items;
      bounds = c.bounds.items;
      journal = c.journal.items;
      room = vec_capacity c.journal;
    } };

    ghost invariant = { λ c. IsCore C.rules C.chip_ok C.shared_ok (record {
      shared = c.shared;
      chips = c.chips.items;
      bounds = c.bounds.items;
      journal = c.journal.items;
      room = vec_capacity c.journal;
    }) };
}

impl<C: ChipSet> Core<C> {
    /// The core of these parts: as many chips and bounds as the set has, each with its number, and
    /// no bound above its chip's key.
    pub fn make(
        shared: C::Shared,
        chips: Vec<C::Chip>,
        bounds: Vec<Key>,
        journal: Vec<Entry>,
    ) -> Core<C>
        requires { IsShaped C.rules chips.items bounds.items }
        ensures { result ≡ record {
          shared = shared;
          chips = chips.items;
          bounds = bounds.items;
          journal = journal.items;
          room = vec_capacity journal;
        } }
    {
        let _pins = C::pins(&shared, 0);
        know_chips::<C>(&chips);
        Core {
            shared,
            chips,
            bounds,
            journal,
        }
    }

    /// The shared state, the chips, their bounds and the journal.
    pub fn into_parts(self) -> (C::Shared, Vec<C::Chip>, Vec<Key>, Vec<Entry>)
        ensures parts { self ≡ record {
          shared = result.0;
          chips = result.1.items;
          bounds = result.2.items;
          journal = result.3.items;
          room = vec_capacity result.3;
        } }
        ensures shaped { IsShaped C.rules result.1.items result.2.items }
        ensures core { IsCore C.rules C.chip_ok C.shared_ok self }
    {
        let Core {
            shared,
            chips,
            bounds,
            journal,
        } = self;
        (shared, chips, bounds, journal)
    }

    /// Whether the event may happen: it is the chip's next one, it lies below cycle `t`, and no
    /// chip whose bound it has to wait for can still come before it.
    ///
    /// An event of a number that no chip has never is.
    pub fn enabled(&self, t: u64, event: Event) -> bool
        ensures value { IsTrue result ↔ IsEnabled C.rules (seen C.rules self.now) t event }
        ensures core { IsCore C.rules C.chip_ok C.shared_ok self.now }
    {
        match event {
            Event::Announce(chip) => self.can_announce(chip),
            Event::Perform(chip) => self.can_perform(t, chip),
            Event::Sample(chip) => self.can_sample(t, chip),
        }
    }

    fn can_announce(&self, chip: u8) -> bool
        ensures value { IsTrue result ↔ IsEnabled C.rules (seen C.rules self.now) 0 (Event.Announce chip) }
        ensures core { IsCore C.rules C.chip_ok C.shared_ok self.now }
    {
        let i = chip as usize;
        let chips = &self.chips;
        if i >= chips.len() {
            return false;
        }
        self.bounds[i].is_below(&C::next(&chips[i]).key)
    }

    fn can_perform(&self, t: u64, chip: u8) -> bool
        ensures value { IsTrue result ↔ IsEnabled C.rules (seen C.rules self.now) t (Event.Perform chip) }
        ensures core { IsCore C.rules C.chip_ok C.shared_ok self.now }
    {
        let i = chip as usize;
        let chips = &self.chips;
        if i >= chips.len() {
            return false;
        }
        let next = C::next(&chips[i]);
        if next.sample {
            return false;
        }
        if next.key.cycle >= t {
            return false;
        }
        is_below_others(&next.key, &self.bounds, i)
    }

    fn can_sample(&self, t: u64, chip: u8) -> bool
        ensures value { IsTrue result ↔ IsEnabled C.rules (seen C.rules self.now) t (Event.Sample chip) }
        ensures core { IsCore C.rules C.chip_ok C.shared_ok self.now }
    {
        let i = chip as usize;
        let chips = &self.chips;
        if i >= chips.len() {
            return false;
        }
        let next = C::next(&chips[i]);
        if !next.sample {
            return false;
        }
        if next.key.cycle >= t {
            return false;
        }
        is_below_writers::<C>(&next.key, &self.bounds, chip)
    }

    /// Whether some chip's next event lies below cycle `t`.
    pub fn is_short(&self, t: u64) -> bool
        ensures { IsTrue result ↔ IsShort C.rules (machine_of C.rules self.now) t }
    {
        is_any_short::<C>(&self.chips, t)
    }

    /// The enabled announcement of the least chip number; where there is none, the event of the
    /// chip of least key; and none at all where no chip's next event lies below cycle `t`.
    ///
    /// Where there is none, the core is the machine after all events below `t` and no other, with
    /// the whole journal to there, whatever its bounds.
    pub fn some_enabled(&self, t: u64) -> Option<Event>
        ensures enabled { MatchOption result (IsQuiet C.rules (machine_of C.rules self.now) t)
            (λ e. IsShort C.rules (machine_of C.rules self.now) t × IsEnabled C.rules (seen C.rules self.now) t e) }
        ensures chosen { IfSome result (λ e. IsChosen C.rules (seen C.rules self.now) e) }
        ensures reached { t ≤ cycle_limit → IfNone result (ReachesEnd C.rules C.chip_ok C.shared_ok t self.now self.now) }
        ensures core { IsCore C.rules C.chip_ok C.shared_ok self.now }
    {
        let found = self.found();
        if found.least.key.cycle >= t {
            return None;
        }
        match found.lagging {
            Some(chip) => Some(Event::Announce(chip)),
            None => Some(event_of(&found.least)),
        }
    }

    fn found(&self) -> Found
        ensures lagging { result.lagging
            ≡ least_lagging (seen C.rules self.now).bound (key_of C.rules (machine_of C.rules self.now)) C.rules.count }
        ensures least { result.least ≡ C.rules.next ((machine_of C.rules self.now).chip (mover C.rules (machine_of C.rules self.now))) }
        ensures core { IsCore C.rules C.chip_ok C.shared_ok self.now }
    {
        look::<C>(&self.chips, &self.bounds)
    }

    /// What holds of every core.
    pub(crate) fn known(&self)
        ensures { IsCore C.rules C.chip_ok C.shared_ok self.now }
    {
        let _chips = &self.chips;
    }
}

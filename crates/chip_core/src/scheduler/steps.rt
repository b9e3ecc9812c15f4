ghost use Rattle.std.specs.Prelude.{◌≡◌, ℕ, ◌+◌, ◌-◌, ◌<◌, ◌≤◌, length, take, slice_get, Some};
ghost use Rattle.md_word.specs.Clock.{cycle_limit};
ghost use Rattle.chip_core.specs.Cores.{KeepsStanding, machine_of, seen};
ghost use Rattle.chip_core.specs.declared.event.Event.{Event};
ghost use Rattle.chip_core.specs.Events.{HasPlace, IsEnabled, Leads, after};
ghost use Rattle.chip_core.specs.Limits.{events_within};
ghost use Rattle.chip_core.specs.Machines.{IsQuiet};

use crate::{ChipSet, Core, Event};
use md_word::Key;

impl<C: ChipSet> Core<C> {
    /// The chip's bound becomes the key of its next event.
    pub fn announce(&mut self, chip: u8)
        requires { IsEnabled C.rules (seen C.rules self.old) 0 (Event.Announce chip) }
        ensures after { seen C.rules self.new ≡ after C.rules (seen C.rules self.old) (Event.Announce chip) }
        ensures stands { (t : ℕ) → t ≤ cycle_limit → IsEnabled C.rules (seen C.rules self.old) t (Event.Announce chip)
            → KeepsStanding C.rules C.chip_ok C.shared_ok t self.old self.new }
        ensures room { self.new.room ≡ self.old.room }
    {
        let i = chip as usize;
        let next = C::next(&self.chips[i]);
        self.bounds[i] = next.key;
    }

    /// The chip makes its access, which the journal enters, and its private work; its bound becomes
    /// a gap after the access.
    pub fn perform(&mut self, chip: u8)
        requires enabled { IsEnabled C.rules (seen C.rules self.old) cycle_limit (Event.Perform chip) }
        requires room { length self.old.journal < self.old.room }
        ensures after { seen C.rules self.new ≡ after C.rules (seen C.rules self.old) (Event.Perform chip) }
        ensures stands { (t : ℕ) → t ≤ cycle_limit → IsEnabled C.rules (seen C.rules self.old) t (Event.Perform chip)
            → KeepsStanding C.rules C.chip_ok C.shared_ok t self.old self.new }
        ensures room { self.new.room ≡ self.old.room }
    {
        let i = chip as usize;
        let held = &mut self.chips[i];
        let next = C::next(held);
        let entry = C::access(held, &mut self.shared);
        self.bounds[i] = bound_after::<C>(&next.key, chip);
        self.journal.push_reserved(entry);
    }

    /// The chip makes its sample and its private work; its bound becomes a gap after the sample.
    pub fn sample(&mut self, chip: u8)
        requires { IsEnabled C.rules (seen C.rules self.old) cycle_limit (Event.Sample chip) }
        ensures after { seen C.rules self.new ≡ after C.rules (seen C.rules self.old) (Event.Sample chip) }
        ensures stands { (t : ℕ) → t ≤ cycle_limit → IsEnabled C.rules (seen C.rules self.old) t (Event.Sample chip)
            → KeepsStanding C.rules C.chip_ok C.shared_ok t self.old self.new }
        ensures room { self.new.room ≡ self.old.room }
    {
        let i = chip as usize;
        let pins = C::pins(&self.shared, chip);
        let held = &mut self.chips[i];
        let next = C::next(held);
        C::sample(held, &pins);
        self.bounds[i] = bound_after::<C>(&next.key, chip);
    }

    pub(crate) fn carry_out(&mut self, event: Event)
        requires enabled { IsEnabled C.rules (seen C.rules self.old) cycle_limit event }
        requires room { HasPlace (length self.old.journal) self.old.room event }
        ensures after { seen C.rules self.new ≡ after C.rules (seen C.rules self.old) event }
        ensures room { self.new.room ≡ self.old.room }
    {
        match event {
            Event::Announce(chip) => self.announce(chip),
            Event::Perform(chip) => self.perform(chip),
            Event::Sample(chip) => self.sample(chip),
        }
    }

    /// Carries out one event after the other while they are enabled, and answers how many it did.
    ///
    /// The journal has to have a free place for each event of the list.
    pub fn run_events(&mut self, t: u64, list: &[Event]) -> usize
        requires time { t ≤ cycle_limit }
        requires room { length self.old.journal + length list.now ≤ self.old.room }
        ensures within { result ≤ length list.now }
        ensures led { Leads C.rules t (seen C.rules self.old) (take result list.now) (seen C.rules self.new) }
        ensures stopped { (e : Event) → slice_get list.now result ≡ Some e → ¬ IsEnabled C.rules (seen C.rules self.new) t e }
        ensures stands { KeepsStanding C.rules C.chip_ok C.shared_ok t self.old self.new }
        ensures few { (from : ℕ) → IsQuiet C.rules (machine_of C.rules self.old) from → result ≤ events_within C.rules (t - from) }
        ensures entered { length self.new.journal ≤ length self.old.journal + result }
        ensures room { self.new.room ≡ self.old.room }
    {
        self.known();
        for (i, event) in list.iter().enumerate() {
            if !self.enabled(t, *event) {
                return i;
            }
            self.carry_out(*event);
        }
        list.len()
    }
}

/// The bound that a move leaves: its chip comes again after a gap at the earliest.
fn bound_after<C: ChipSet>(key: &Key, chip: u8) -> Key
    requires chip { chip < C.rules.count }
    requires cycle { key.now.cycle < cycle_limit }
    ensures { result ≡ record { cycle = key.now.cycle + C.rules.gap chip; chip = chip } }
{
    Key {
        cycle: key.cycle + C::gap(chip),
        chip,
    }
}

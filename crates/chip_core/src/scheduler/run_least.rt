ghost use Rattle.std.specs.Prelude.{◌≡◌, ◌≢◌, ℕ, ◌<◌, ◌≤◌, ◌↔◌, [], IsTrue, true, false, length, MatchOption};
ghost use Rattle.md_word.specs.Clock.{cycle_limit};
ghost use Rattle.md_word.specs.Keys.{key_lt};
ghost use Rattle.chip_core.specs.declared.event.Event.{Event};
ghost use Rattle.chip_core.specs.Chips.{SamplesBelow};
ghost use Rattle.chip_core.specs.Cores.{IsCore, ReachesEnd, chip_in, machine_of, seen};
ghost use Rattle.chip_core.specs.Events.{AreKeys, AwaitsAccess, HasPlace, HasRoom, IsEnabled, IsTurn, Reaches, SamplesOn, after, own_event};
ghost use Rattle.chip_core.specs.Limits.{all_moves_left};
ghost use Rattle.chip_core.specs.Looks.{IsFreeTo, IsLastFree, IsLeastLimit, IsLimit};
ghost use Rattle.chip_core.specs.Machines.{IsRunTo, key_of, least_below};
ghost use Rattle.chip_core.specs.Resting.{SamplesWithin};
ghost use Rattle.chip_core.specs.Staying.{StaysOn, TakesTurn};

use crate::look::{free_to, least_of, limit_of};
use crate::{ChipSet, Core};
use md_word::Key;

/// Brings a core to the machine after all events below cycle `t`: it announces every chip, and then
/// lets the chip of least bound make its event and announces it again, until no bound lies below.
/// A chip that made its access goes on as long as its events come before the bounds of all others, and one that
/// samples up to the bounds of the chips that write its pins. A chip that rests sleeps while the others go on,
/// and makes its samples once its pins may have changed, or at the end.
///
/// The journal has to have a free place for each access below `t`, which [`crate::laws::room`]
/// shows.
pub fn run_least<C: ChipSet>(core: &mut Core<C>, t: u64)
    requires time { t ≤ cycle_limit }
    requires room { HasRoom C.rules t (seen C.rules core.old) core.old.room }
    ensures run { ReachesEnd C.rules C.chip_ok C.shared_ok t core.old core.new }
    ensures first { core.old.journal ≡ []
        → IsRunTo C.rules (machine_of C.rules core.old) t (machine_of C.rules core.new) core.new.journal }
    ensures room { core.new.room ≡ core.old.room }
    ensures core { IsCore C.rules C.chip_ok C.shared_ok core.new }
{
    core.known();
    core.announce_all();
    while let Some(chip) = core.first_below(t) {
        core.go_on(t, chip);
    }
}

impl<C: ChipSet> Core<C> {
    /// Each chip's bound becomes its key.
    fn announce_all(&mut self)
        ensures led { (t : ℕ) → Reaches C.rules t (seen C.rules self.old) (seen C.rules self.new) }
        ensures keys { AreKeys C.rules (seen C.rules self.new) C.rules.count }
        ensures room { self.new.room ≡ self.old.room }
        ensures core { IsCore C.rules C.chip_ok C.shared_ok self.new }
    {
        self.known();
        for chip in 0..C::count() {
            self.set_bound(chip);
        }
    }

    /// The chip's bound becomes its key, whether it lags or not.
    fn set_bound(&mut self, chip: u8)
        requires { chip < C.rules.count }
        ensures after { seen C.rules self.new ≡ after C.rules (seen C.rules self.old) (Event.Announce chip) }
        ensures room { self.new.room ≡ self.old.room }
        ensures before { IsCore C.rules C.chip_ok C.shared_ok self.old }
        ensures core { IsCore C.rules C.chip_ok C.shared_ok self.new }
    {
        let i = chip as usize;
        let next = C::next(&self.chips[i]);
        self.bounds[i] = next.key;
    }

    /// The chip of least bound, where that bound lies below cycle `t`.
    fn first_below(&self, t: u64) -> Option<u8>
        ensures found { MatchOption result
            (t ≤ ((seen C.rules self.now).bound (least_below (seen C.rules self.now).bound C.rules.count)).cycle)
            (λ i. (i ≡ least_below (seen C.rules self.now).bound C.rules.count) × (((seen C.rules self.now).bound i).cycle < t)) }
        ensures core { IsCore C.rules C.chip_ok C.shared_ok self.now }
    {
        let chip = least_of::<C>(&self.bounds);
        if self.bounds[chip as usize].cycle < t {
            Some(chip)
        } else {
            None
        }
    }

    /// The chip, whose event comes before all others, goes on: it sleeps where it rests, and else makes its
    /// event and the samples after it.
    fn go_on(&mut self, t: u64, chip: u8)
        requires time { t ≤ cycle_limit }
        requires turn { IsTurn C.rules t (seen C.rules self.old) chip }
        requires keys { AreKeys C.rules (seen C.rules self.old) C.rules.count }
        requires room { HasRoom C.rules t (seen C.rules self.old) self.old.room }
        ensures led { Reaches C.rules t (seen C.rules self.old) (seen C.rules self.new) }
        ensures less { all_moves_left C.rules t (machine_of C.rules self.new) < all_moves_left C.rules t (machine_of C.rules self.old) }
        ensures keys { AreKeys C.rules (seen C.rules self.new) C.rules.count }
        ensures room { self.new.room ≡ self.old.room }
        ensures core { IsCore C.rules C.chip_ok C.shared_ok self.new }
    {
        if self.rests(chip) {
            self.rest(t, chip);
            return;
        }
        self.turn(t, chip, chip);
        self.sample_on(t, chip);
    }

    /// The chip makes the access that it waits at, where it waits at one, and perhaps events after it that come
    /// before those of the others, but for a sleeper. Its bound becomes the key of its next event. The answer is
    /// the key of its last event where that may have changed the sleeper's pins; where none sleeps, that is the
    /// chip's own number.
    pub(crate) fn turn(&mut self, t: u64, chip: u8, sleeper: u8) -> Option<Key>
        requires time { t ≤ cycle_limit }
        requires chip { chip < C.rules.count }
        requires low { (key_of C.rules (machine_of C.rules self.old) chip).cycle < t }
        requires first { (k : ℕ) → k < C.rules.count → k ≢ chip → k ≢ sleeper → key_lt (key_of C.rules (machine_of C.rules self.old) chip) ((seen C.rules self.old).bound k) ≡ true }
        requires keys { AreKeys C.rules (seen C.rules self.old) C.rules.count }
        requires room { HasPlace (length self.old.journal) self.old.room (own_event C.rules (seen C.rules self.old) chip) }
        ensures turn { TakesTurn C.rules t chip sleeper (seen C.rules self.old) (seen C.rules self.new) result }
        ensures room { self.new.room ≡ self.old.room }
        ensures core { IsCore C.rules C.chip_ok C.shared_ok self.new }
    {
        if C::next(&self.chips[chip as usize]).sample {
            return None;
        }
        let end = self.free(t, chip, sleeper);
        self.stay(chip, sleeper, &end)
    }

    /// The key below which the chip may go on.
    fn free(&self, t: u64, chip: u8, sleeper: u8) -> Key
        ensures free { IsFreeTo t (seen C.rules self.now).bound C.rules.count chip sleeper result }
        ensures last { IsLastFree t (seen C.rules self.now).bound C.rules.count chip sleeper result }
        ensures core { IsCore C.rules C.chip_ok C.shared_ok self.now }
    {
        free_to::<C>(&self.bounds, t, chip, sleeper)
    }

    /// The chip makes its access and perhaps events after it before a key, and its bound becomes the key of
    /// its next event.
    fn stay(&mut self, chip: u8, sleeper: u8, end: &Key) -> Option<Key>
        requires access { AwaitsAccess C.rules (seen C.rules self.old) chip }
        requires below { key_lt (key_of C.rules (machine_of C.rules self.old) chip) end.now ≡ true }
        requires time { key_lt (record { cycle = cycle_limit; chip = 0 }) end.now ≡ false }
        requires keys { AreKeys C.rules (seen C.rules self.old) C.rules.count }
        requires room { length self.old.journal < self.old.room }
        ensures stays { StaysOn C.rules end.now chip sleeper (seen C.rules self.old) (seen C.rules self.new) result }
        ensures room { self.new.room ≡ self.old.room }
        ensures core { IsCore C.rules C.chip_ok C.shared_ok self.new }
    {
        let i = chip as usize;
        let held = &mut self.chips[i];
        let stay = C::access_ahead(
            held,
            chip,
            &mut self.shared,
            &mut self.journal,
            end,
            sleeper,
        );
        let next = C::next(held);
        let bound = &mut self.bounds[i];
        bound.cycle = next.key.cycle;
        bound.chip = next.key.chip;
        stay.woke
    }

    /// The chip samples on, below cycle `t` and the bounds of the others that write its pins, as long as it
    /// may.
    #[inline(always)]
    pub(crate) fn sample_on(&mut self, t: u64, chip: u8)
        requires time { t ≤ cycle_limit }
        requires chip { chip < C.rules.count }
        requires keys { AreKeys C.rules (seen C.rules self.old) C.rules.count }
        ensures led { Reaches C.rules t (seen C.rules self.old) (seen C.rules self.new) }
        ensures within { SamplesWithin C.rules t chip (seen C.rules self.old) (seen C.rules self.new) }
        ensures ended { ¬ IsEnabled C.rules (seen C.rules self.new) t (Event.Sample chip) }
        ensures keys { AreKeys C.rules (seen C.rules self.new) C.rules.count }
        ensures room { self.new.room ≡ self.old.room }
        ensures core { IsCore C.rules C.chip_ok C.shared_ok self.new }
    {
        if !C::next(&self.chips[chip as usize]).sample {
            return;
        }
        let end = self.limit(t, chip);
        let pins = self.pins_of(chip);
        while self.samples_below(chip, &end) {
            self.turn_samples(chip, &pins, &end);
        }
    }

    /// The input pins of a chip.
    pub(crate) fn pins_of(&self, chip: u8) -> C::Pins
        ensures value { result ≡ C.rules.pins self.now.shared chip }
        ensures core { IsCore C.rules C.chip_ok C.shared_ok self.now }
    {
        C::pins(&self.shared, chip)
    }

    /// The key below which the chip may sample.
    fn limit(&self, t: u64, chip: u8) -> Key
        ensures limit { IsLimit C.rules t (seen C.rules self.now).bound C.rules.count chip result }
        ensures least { IsLeastLimit C.rules t (seen C.rules self.now).bound C.rules.count chip result }
        ensures core { IsCore C.rules C.chip_ok C.shared_ok self.now }
    {
        limit_of::<C>(&self.bounds, t, chip)
    }

    /// Whether the chip's next event is a sample below a key.
    pub(crate) fn samples_below(&self, chip: u8, end: &Key) -> bool
        requires { chip < C.rules.count }
        ensures value { IsTrue result ↔ SamplesBelow C.rules end.now (chip_in C.rules self.now.chips chip) }
        ensures core { IsCore C.rules C.chip_ok C.shared_ok self.now }
    {
        let next = C::next(&self.chips[chip as usize]);
        next.sample && next.key.is_below(end)
    }

    /// The chip makes the sample of these pins that is due, and perhaps more of them before a key, and
    /// its bound becomes the key of its next event.
    fn turn_samples(&mut self, chip: u8, pins: &C::Pins, end: &Key)
        requires chip { chip < C.rules.count }
        requires pins { pins.now ≡ C.rules.pins self.old.shared chip }
        requires sample { SamplesBelow C.rules end.now (chip_in C.rules self.old.chips chip) }
        requires limit { IsLimit C.rules cycle_limit (seen C.rules self.old).bound C.rules.count chip end.now }
        ensures on { SamplesOn C.rules end.now chip (seen C.rules self.old) (seen C.rules self.new) }
        ensures shared { self.new.shared ≡ self.old.shared }
        ensures room { self.new.room ≡ self.old.room }
        ensures core { IsCore C.rules C.chip_ok C.shared_ok self.new }
    {
        let i = chip as usize;
        let held = &mut self.chips[i];
        C::sample_ahead(held, pins, end);
        let next = C::next(held);
        let bound = &mut self.bounds[i];
        bound.cycle = next.key.cycle;
        bound.chip = next.key.chip;
    }
}

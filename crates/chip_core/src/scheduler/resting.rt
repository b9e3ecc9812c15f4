//! A chip that rests sleeps while the others go on.
ghost use Rattle.std.specs.Prelude.{◌≡◌, ◌≢◌, ℕ, ◌<◌, ◌≤◌, true, false, length, MatchOption};
ghost use Rattle.md_word.specs.Clock.{cycle_limit};
ghost use Rattle.md_word.specs.Keys.{key_lt};
ghost use Rattle.chip_core.specs.Chips.{ArePins, Rests, WritesNone};
ghost use Rattle.chip_core.specs.Cores.{IsCore, chip_in, key_in, machine_of, seen};
ghost use Rattle.chip_core.specs.Events.{AreKeys, HasPlace, HasRoom, IsTurn, Reaches, own_event, past_access};
ghost use Rattle.chip_core.specs.Limits.{all_moves_left};
ghost use Rattle.chip_core.specs.Machines.{key_of};
ghost use Rattle.chip_core.specs.Resting.{AreOthersLate, CatchesUp, IsFirstOther, Sleeps};

use crate::ahead::run;
use crate::look::first_other;
use crate::{ChipSet, Core};
use md_word::Key;

impl<C: ChipSet> Core<C> {
    /// Whether the chip rests, and accesses of it change no pins.
    pub(crate) fn rests(&self, chip: u8) -> bool
        requires { chip < C.rules.count }
        ensures rests { result ≡ true → Rests C.rules (C.rules.pins self.now.shared chip) (chip_in C.rules self.now.chips chip) }
        ensures apart { result ≡ true → WritesNone C.rules chip }
        ensures core { IsCore C.rules C.chip_ok C.shared_ok self.now }
    {
        C::rests(&self.chips[chip as usize], chip, &self.shared)
    }

    /// The chip, whose event comes before all others, sleeps while the others go on. It makes its samples of
    /// the pins that it had once an access may have changed them, or none of the others is below cycle `t`.
    pub(crate) fn rest(&mut self, t: u64, chip: u8)
        requires time { t ≤ cycle_limit }
        requires turn { IsTurn C.rules t (seen C.rules self.old) chip }
        requires keys { AreKeys C.rules (seen C.rules self.old) C.rules.count }
        requires room { HasRoom C.rules t (seen C.rules self.old) self.old.room }
        requires rests { Rests C.rules (C.rules.pins self.old.shared chip) (chip_in C.rules self.old.chips chip) }
        requires apart { WritesNone C.rules chip }
        ensures led { Reaches C.rules t (seen C.rules self.old) (seen C.rules self.new) }
        ensures less { all_moves_left C.rules t (machine_of C.rules self.new) < all_moves_left C.rules t (machine_of C.rules self.old) }
        ensures keys { AreKeys C.rules (seen C.rules self.new) C.rules.count }
        ensures room { self.new.room ≡ self.old.room }
        ensures core { IsCore C.rules C.chip_ok C.shared_ok self.new }
    {
        let pins = self.pins_of(chip);
        let end = self.others_on(t, chip);
        self.catch_up(chip, &pins, &end);
    }

    /// The others go on while one chip sleeps, up to an access that may have changed its pins, or cycle `t`;
    /// answers the key before which the sleeper's samples come.
    fn others_on(&mut self, t: u64, sleeper: u8) -> Key
        requires time { t ≤ cycle_limit }
        requires turn { IsTurn C.rules t (seen C.rules self.old) sleeper }
        requires keys { AreKeys C.rules (seen C.rules self.old) C.rules.count }
        requires room { HasRoom C.rules t (seen C.rules self.old) self.old.room }
        requires rests { Rests C.rules (C.rules.pins self.old.shared sleeper) (chip_in C.rules self.old.chips sleeper) }
        requires apart { WritesNone C.rules sleeper }
        ensures sleeps { Sleeps C.rules t result sleeper (C.rules.pins self.old.shared sleeper) (seen C.rules self.old) (seen C.rules self.new) }
        ensures after { key_lt (key_in C.rules self.old.chips sleeper) result ≡ true }
        ensures time { key_lt (record { cycle = cycle_limit; chip = 0 }) result ≡ false }
        ensures keys { AreKeys C.rules (seen C.rules self.new) C.rules.count }
        ensures room { self.new.room ≡ self.old.room }
        ensures core { IsCore C.rules C.chip_ok C.shared_ok self.new }
    {
        self.known();
        while let Some(chip) = self.other_below(t, sleeper) {
            if let Some(end) = self.turn(t, chip, sleeper) {
                return end;
            }
            self.sample_on(t, chip);
        }
        Key { cycle: t, chip: 0 }
    }

    /// The chip of least bound but for one, where that bound lies below cycle `t`.
    fn other_below(&self, t: u64, but: u8) -> Option<u8>
        ensures found { MatchOption result (AreOthersLate t (seen C.rules self.now).bound C.rules.count but)
            (λ i. IsFirstOther t (seen C.rules self.now).bound C.rules.count but i) }
        ensures core { IsCore C.rules C.chip_ok C.shared_ok self.now }
    {
        first_other::<C>(&self.bounds, t, but)
    }

    /// The chip makes its samples of these pins before a key, and its bound becomes the key of its next
    /// event.
    fn catch_up(&mut self, chip: u8, pins: &C::Pins, end: &Key)
        requires chip { chip < C.rules.count }
        requires pins { ArePins C.rules C.shared_ok pins.now chip }
        requires time { key_lt (record { cycle = cycle_limit; chip = 0 }) end.now ≡ false }
        requires keys { AreKeys C.rules (seen C.rules self.old) C.rules.count }
        ensures on { CatchesUp C.rules end.now chip pins.now (seen C.rules self.old) (seen C.rules self.new) }
        ensures room { self.new.room ≡ self.old.room }
        ensures core { IsCore C.rules C.chip_ok C.shared_ok self.new }
    {
        if !self.samples_below(chip, end) {
            return;
        }
        let i = chip as usize;
        let held = &mut self.chips[i];
        run::<C>(held, pins, end);
        let next = C::next(held);
        self.bounds[i] = next.key;
    }
}

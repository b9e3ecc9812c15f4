//! All samples below a cycle, up to the first access.
ghost use Rattle.std.specs.Prelude.{◌≡◌, ◌<◌, ◌≤◌, ◌↔◌, true, IsTrue};
ghost use Rattle.md_word.specs.Clock.{cycle_limit};

use crate::chip::Chip68;
use crate::iteration::Place;
use crate::stage::Stage;
use crate::watched::Watched;
use md_word::Pins68;

impl Chip68 {
    ghost use Rattle.m68k_chip.specs.Cases.{case_of, is_rest};
    ghost use Rattle.m68k_chip.specs.Events.{WentAhead};
    ghost use Rattle.m68k_chip.specs.Iterations.{HasWatched};
    ghost use Rattle.m68k_chip.specs.Validity.{IsChip68};
    ghost use Rattle.m68k_chip.specs.States.{next_of};

    /// Takes the sample that is the next event, as `sample` does, and then all samples of these pins
    /// below cycle `end`, up to the first access; answers how many that were.
    pub fn sample_ahead(&mut self, pins: Pins68, end: u64) -> u64
        requires sampling { (next_of self.old.state).sample ≡ true }
        requires far { self.old.state.next < cycle_limit }
        requires end { end ≤ cycle_limit }
        ensures state { WentAhead result end self.old.cart pins.level self.old.state self.new.state }
        ensures all { (next_of self.new.state).sample ≡ true → end ≤ self.new.state.next }
        ensures cart { self.new.cart ≡ self.old.cart }
    {
        if self
            .iteration
            .leads_back(pins.level, self.sequencer.start, end)
        {
            self.iteration.place = Place::AtRead;
            let start = self.sequencer.start + u64::from(self.iteration.rest);
            self.sequencer.read_again(&self.iteration.from, start);
            self.iteration.samples
        } else if self.sequencer.rests(pins.level) {
            self.rest_ahead(pins, end)
        } else if matches!(self.iteration.place, Place::Away) {
            self.sample_each(pins, end)
        } else {
            self.sample_round(pins, end)
        }
    }

    /// `sample_ahead` where the 68000 does nothing, being halted or stopped.
    fn rest_ahead(&mut self, pins: Pins68, end: u64) -> u64
        requires sampling { (next_of self.old.state).sample ≡ true }
        requires far { self.old.state.next < cycle_limit }
        requires rest { is_rest (case_of self.old.state pins.level) ≡ true }
        requires end { end ≤ cycle_limit }
        ensures state { WentAhead result end self.old.cart pins.level self.old.state self.new.state }
        ensures all { (next_of self.new.state).sample ≡ true → end ≤ self.new.state.next }
        ensures cart { self.new.cart ≡ self.old.cart }
    {
        self.iteration.place = Place::Away;
        self.sequencer.rest_ahead(end)
    }

    /// `sample_ahead`, sample by sample.
    fn sample_each(&mut self, pins: Pins68, end: u64) -> u64
        requires sampling { (next_of self.old.state).sample ≡ true }
        requires far { self.old.state.next < cycle_limit }
        requires end { end ≤ cycle_limit }
        ensures state { WentAhead result end self.old.cart pins.level self.old.state self.new.state }
        ensures all { (next_of self.new.state).sample ≡ true → end ≤ self.new.state.next }
        ensures cart { self.new.cart ≡ self.old.cart }
    {
        self.sample(pins);
        let mut samples = 1;
        while self.samples_below(end) {
            if self.looks(samples) {
                return self.sample_repeating(samples, pins, end);
            }
            self.sample(pins);
            samples += 1;
        }
        samples
    }

    /// `sample_each` from a place of an iteration.
    fn sample_round(&mut self, pins: Pins68, end: u64) -> u64
        requires sampling { (next_of self.old.state).sample ≡ true }
        requires far { self.old.state.next < cycle_limit }
        requires end { end ≤ cycle_limit }
        ensures state { WentAhead result end self.old.cart pins.level self.old.state self.new.state }
        ensures all { (next_of self.new.state).sample ≡ true → end ≤ self.new.state.next }
        ensures cart { self.new.cart ≡ self.old.cart }
    {
        let mut iteration = self.iteration;
        let begun = self.sequencer.start;
        let watched = self.sample_watched(pins, end);
        iteration.go_on(&self.sequencer, &watched, begun, pins.level);
        self.iteration = iteration;
        watched.samples
    }

    /// `sample_each`; answers what was seen of the samples.
    fn sample_watched(&mut self, pins: Pins68, end: u64) -> Watched
        requires sampling { (next_of self.old.state).sample ≡ true }
        requires far { self.old.state.next < cycle_limit }
        requires end { end ≤ cycle_limit }
        ensures watched { HasWatched result end self.old.cart pins.level self.old.state self.new.state }
        ensures all { (next_of self.new.state).sample ≡ true → end ≤ self.new.state.next }
        ensures cart { self.new.cart ≡ self.old.cart }
    {
        let latest = self.next().key.cycle;
        let quiet = self.sample_quietly(pins);
        let mut watched = Watched {
            samples: 1,
            latest,
            quiet,
        };
        while self.samples_below(end) {
            let cycle = self.next().key.cycle;
            let quiet = self.sample_quietly(pins);
            watched.add(cycle, quiet);
        }
        watched
    }

    /// Whether the next event is a sample below a cycle.
    #[tactic(auto, unfolding(crate::specs::States::next_of))]
    pub(crate) fn samples_below(&self, end: u64) -> bool
        ensures value { IsTrue result ↔ ((next_of self.now.state).sample ≡ true) × (self.now.state.next < end) }
        ensures valid { IsChip68 self.now }
    {
        matches!(self.sequencer.stage, Stage::Sample) && self.sequencer.next < end
    }
}

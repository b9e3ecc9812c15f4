//! The answer to an access, and all samples below a cycle after it, up to the next access.
ghost use Rattle.std.specs.Prelude.{◌≡◌, ◌+◌, ◌<◌, ◌≤◌, true, false, IsTrue};
ghost use Rattle.md_word.specs.Clock.{cycle_limit};
ghost use Rattle.m68k_chip.specs.declared.iteration.Place.TheVariants.{AtRead};

use crate::chip::Chip68;
use crate::iteration::Iteration;
use md_word::{Answer68, Pins68};

impl Iteration {
    /// Whether the 68000 is at the read, that is answered as on the iteration, and all samples of the iteration come at
    /// this interrupt level, and below a cycle, where the instruction that reads began at `start`.
    #[inline(always)]
    pub fn goes_round(&self, answer: &Answer68, level: u8, start: u64, end: u64) -> bool
        requires { start < cycle_limit }
        ensures place { IsTrue result → self.now.place ≡ AtRead }
        ensures answer { IsTrue result → answer.now ≡ self.now.answer }
        ensures level { IsTrue result → level ≡ self.now.level }
        ensures below { IsTrue result → start + self.now.first + self.now.last < end }
    {
        self.is_read_again(answer)
            && self.level == level
            && start + u64::from(self.first) + u64::from(self.last) < end
    }
}

impl Chip68 {
    ghost use Rattle.m68k_chip.specs.Events.{SampledOn, answered, request_of};
    ghost use Rattle.m68k_chip.specs.States.{next_of};
    ghost use Rattle.m68k_chip.specs.Validity.{Fits, IsChip68};

    /// Takes the answer to the access that is the next event, as `answer` does, and then all samples of these pins
    /// below cycle `end`, up to the next access; answers how many samples that were.
    #[inline(always)]
    pub fn answer_ahead(&mut self, answer: Answer68, pins: Pins68, end: u64) -> u64
        requires asking { (next_of self.old.state).sample ≡ false }
        requires far { self.old.state.next < cycle_limit }
        requires fits { Fits (request_of self.old.cart self.old.state) answer }
        requires end { end ≤ cycle_limit }
        ensures state { SampledOn result end self.old.cart pins.level (answered self.old.cart self.old.state answer) self.new.state }
        ensures all { (next_of self.new.state).sample ≡ true → end ≤ self.new.state.next }
        ensures later { self.old.state.next + result < self.new.state.next }
        ensures cart { self.new.cart ≡ self.old.cart }
    {
        if self
            .iteration
            .goes_round(&answer, pins.level, self.sequencer.start, end)
        {
            let start = self.sequencer.start
                + u64::from(self.iteration.first)
                + u64::from(self.iteration.rest);
            self.sequencer.read_later(start);
            self.iteration.samples
        } else {
            self.answer(answer);
            self.sample_on(pins, end)
        }
    }

    /// Takes all samples of these pins below cycle `end`, up to the next access; answers how many that were.
    fn sample_on(&mut self, pins: Pins68, end: u64) -> u64
        requires end { end ≤ cycle_limit }
        ensures state { SampledOn result end self.old.cart pins.level self.old.state self.new.state }
        ensures all { (next_of self.new.state).sample ≡ true → end ≤ self.new.state.next }
        ensures later { self.old.state.next + result ≤ self.new.state.next }
        ensures cart { self.new.cart ≡ self.old.cart }
    {
        if self.samples_below(end) {
            self.sample_ahead(pins, end)
        } else {
            0
        }
    }
}

//! Samples that repeat: a loop that makes no access leads back to the same registers, and is taken in whole periods.
//! The period is found as in Brent's cycle detection.
ghost use Rattle.std.specs.Prelude.{◌≡◌, ◌+◌, ◌-◌, ◌^◌, ◌<◌, ◌≤◌, ◌&&◌, ℕ, List, true, false, IsTrue};
ghost use Rattle.md_word.specs.Clock.{cycle_limit};
ghost use Rattle.m68k_chip.specs.Events as events;
ghost use Rattle.m68k_chip.specs.Events.{SampledOn};
ghost use Rattle.m68k_chip.specs.Iterations.{sampling};
ghost use Rattle.m68k_chip.specs.Repetitions.{IsMarked};
ghost use Rattle.m68k_chip.specs.States.{state_of};

use crate::chip::Chip68;
use crate::iteration::{NO_REGISTERS, Place, are_same};
use crate::sequencer::Sequencer;
use md_word::{Pins68, Regs};

/// After how many samples in one go it is worth a look whether they repeat: at first, and once they did.
const AT_FIRST: u64 = 24;

const ONCE_FOUND: u64 = 1;

/// How many looks are left out after one that was in vain.
const LEFT_OUT: u64 = 29;

/// When a look comes whether samples repeat. What comes of them is the same whenever it comes.
#[derive(Drop)]
pub struct Patience {
    /// After how many samples in one go.
    samples: u64,
    /// How many looks are left out before.
    left_out: u64,
}

impl Patience {
    /// Before any look.
    pub fn new() -> Patience {
        Patience {
            samples: AT_FIRST,
            left_out: 0,
        }
    }

    /// Whether a look comes after so many samples in one go.
    #[inline(always)]
    fn ends(&mut self, samples: u64) -> bool {
        samples == self.samples && self.looks()
    }

    /// Whether the look is not left out. It may be in vain.
    #[inline(never)]
    fn looks(&mut self) -> bool {
        if self.left_out > 0 {
            self.left_out -= 1;
            return false;
        }
        self.samples = AT_FIRST;
        self.left_out = LEFT_OUT;
        true
    }

    /// The look was not in vain.
    fn finds(&mut self) {
        self.samples = ONCE_FOUND;
        self.left_out = 0;
    }
}

/// A sample to which others may lead back.
#[derive(Drop)]
pub struct Mark {
    /// It had nothing else to come, and nothing was written into work RAM since.
    pub kept: bool,
    /// The registers at it.
    pub regs: Regs,
    /// Its cycle.
    pub cycle: u64,
    /// How many samples were taken from it on.
    pub samples: u64,
}

impl Mark {
    /// No sample.
    fn none() -> Mark
        ensures kept { result.kept ≡ false }
        ensures cycle { result.cycle ≡ 0 }
        ensures samples { result.samples ≡ 0 }
    {
        Mark {
            kept: false,
            regs: NO_REGISTERS,
            cycle: 0,
            samples: 0,
        }
    }

    /// One more sample was taken.
    fn add(&mut self, quiet: bool)
        requires { self.old.samples < 2 ^ 64 - 1 }
        ensures { self.new ≡ record self.old { kept = self.old.kept && quiet; samples = self.old.samples + 1 } }
    {
        self.kept = self.kept && quiet;
        self.samples += 1;
    }
}

impl Sequencer {
    /// Marks the sample at which it is.
    fn mark(&self, mark: &mut Mark)
        ensures marked { (cart ram : List ℕ) (level : ℕ) → IsMarked mark.new cart level (state_of self.now ram) }
        ensures early { mark.new.cycle + mark.new.samples ≤ self.now.next }
    {
        mark.kept = self.is_sampling();
        mark.regs = self.regs;
        mark.cycle = self.next;
        mark.samples = 0;
    }

    /// Whether it is at a later sample below cycle `end` with the registers of the mark.
    fn is_back(&self, mark: &Mark, end: u64) -> bool
        ensures kept { IsTrue result → mark.now.kept ≡ true }
        ensures later { IsTrue result → mark.now.cycle < self.now.next }
        ensures below { IsTrue result → self.now.next < end }
        ensures sampling { (ram : List ℕ) → IsTrue result → state_of self.now ram ≡ sampling ram mark.now.regs self.now.next }
    {
        mark.kept
            && mark.cycle < self.next
            && self.next < end
            && are_same(&self.regs, &mark.regs)
            && self.is_sampling()
    }

    /// Takes the samples that led back from the mark as often as they fit below cycle `end`; answers how many they
    /// are.
    fn pass_over(&mut self, mark: &Mark, end: u64) -> u64
        requires later { mark.now.cycle < self.old.next }
        requires below { self.old.next < end }
        requires end { end ≤ cycle_limit }
        requires early { mark.now.cycle + mark.now.samples ≤ self.old.next }
        ensures led { (cart ram : List ℕ) (level : ℕ) → state_of self.old ram ≡ sampling ram mark.now.regs self.old.next
            → SampledOn mark.now.samples self.old.next cart level (sampling ram mark.now.regs mark.now.cycle) (state_of self.old ram)
            → SampledOn result end cart level (state_of self.old ram) (state_of self.new ram) }
        ensures state { (ram : List ℕ) → state_of self.new ram ≡ events.at_sample (state_of self.old ram) self.new.next }
        ensures later { self.old.next + result ≤ self.new.next }
        ensures few { result ≤ end }
    {
        let period = self.next - mark.cycle;
        let periods = (end - self.next) / period;
        self.rest_at_sample(self.next + periods * period);
        periods * mark.samples
    }
}

impl Chip68 {
    ghost use Rattle.m68k_chip.specs.Events.{WentAhead};
    ghost use Rattle.m68k_chip.specs.States.{State68, next_of};

    /// Whether it is looked for after so many samples in one go whether they repeat.
    #[inline(always)]
    pub(crate) fn looks(&mut self, samples: u64) -> bool
        ensures { self.new ≡ self.old }
    {
        self.patience.ends(samples)
    }

    /// `sample_each` after so many samples, where it is looked for whether they repeat.
    #[inline(never)]
    pub(crate) fn sample_repeating(&mut self, samples: u64, pins: Pins68, end: u64) -> u64
        requires end { end ≤ cycle_limit }
        requires few { samples ≤ self.old.state.next + 1 }
        ensures state { (before : State68) → WentAhead samples end self.old.cart pins.level before self.old.state → WentAhead result end self.old.cart pins.level before self.new.state }
        ensures all { (next_of self.new.state).sample ≡ true → end ≤ self.new.state.next }
        ensures cart { self.new.cart ≡ self.old.cart }
    {
        let mut mark = Mark::none();
        let mut count = samples;
        while self.samples_below(end) {
            let quiet = self.sample_quietly(pins);
            mark.add(quiet);
            count += 1;
            count += self.repeat(&mut mark, count - samples, end);
        }
        count
    }

    /// Takes what led back from the mark as often as it fits below cycle `end`, where the 68000 is back; else marks
    /// the sample at which it is, where half of so many samples came since the mark. Answers how many samples it took.
    fn repeat(&mut self, mark: &mut Mark, samples: u64, end: u64) -> u64
        requires end { end ≤ cycle_limit }
        requires early { mark.old.cycle + mark.old.samples ≤ self.old.state.next }
        ensures led { (level : ℕ) → IsMarked mark.old self.old.cart level self.old.state → SampledOn result end self.old.cart level self.old.state self.new.state }
        ensures marked { (level : ℕ) → IsMarked mark.old self.old.cart level self.old.state → IsMarked mark.new self.old.cart level self.new.state }
        ensures early { mark.new.cycle + mark.new.samples ≤ self.new.state.next }
        ensures later { self.old.state.next + result ≤ self.new.state.next }
        ensures few { result ≤ end }
        ensures cart { self.new.cart ≡ self.old.cart }
    {
        if self.is_back(mark, end) {
            mark.kept = false;
            self.pass_over(mark, end)
        } else if mark.samples < samples / 2 {
            0
        } else {
            self.mark(mark);
            0
        }
    }

    /// Marks the sample at which it is.
    fn mark(&self, mark: &mut Mark)
        ensures marked { (level : ℕ) → IsMarked mark.new self.now.cart level self.now.state }
        ensures early { mark.new.cycle + mark.new.samples ≤ self.now.state.next }
    {
        self.sequencer.mark(mark);
    }

    /// Whether it is at a later sample below cycle `end` with the registers of the mark.
    fn is_back(&self, mark: &Mark, end: u64) -> bool
        ensures kept { IsTrue result → mark.now.kept ≡ true }
        ensures later { IsTrue result → mark.now.cycle < self.now.state.next }
        ensures below { IsTrue result → self.now.state.next < end }
        ensures sampling { IsTrue result → self.now.state ≡ sampling self.now.state.ram mark.now.regs self.now.state.next }
    {
        self.sequencer.is_back(mark, end)
    }

    /// Takes the samples that led back from the mark as often as they fit below cycle `end`; answers how many they
    /// are.
    fn pass_over(&mut self, mark: &Mark, end: u64) -> u64
        requires sampling { self.old.state ≡ sampling self.old.state.ram mark.now.regs self.old.state.next }
        requires later { mark.now.cycle < self.old.state.next }
        requires below { self.old.state.next < end }
        requires end { end ≤ cycle_limit }
        requires early { mark.now.cycle + mark.now.samples ≤ self.old.state.next }
        ensures led { (level : ℕ) → SampledOn mark.now.samples self.old.state.next self.old.cart level (sampling self.old.state.ram mark.now.regs mark.now.cycle) self.old.state
            → SampledOn result end self.old.cart level self.old.state self.new.state }
        ensures later { self.old.state.next + result ≤ self.new.state.next }
        ensures few { result ≤ end }
        ensures cart { self.new.cart ≡ self.old.cart }
    {
        self.patience.finds();
        self.iteration.place = Place::Away;
        self.sequencer.pass_over(mark, end)
    }
}

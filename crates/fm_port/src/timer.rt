ghost use Rattle.std.specs.Prelude.{◌≡◌, ◌+◌, ◌^◌, ◌<◌, ◌≤◌, ◌||◌, ℕ};
ghost use Rattle.md_word.specs.Clock.{cycle_limit};
ghost use Rattle.fm_port.specs.Timers as meaning;
ghost use Rattle.fm_port.specs.Timers.{IsTimer};

/// A timer. Source: Yamaha, YM2608 Application Manual, timers.
#[derive(Clone, Copy)]
pub struct Timer {
    pub run: bool,
    /// The cycle of its next overflow, where it runs.
    pub next: u64,
    /// Whether it has overflowed, where that was enabled.
    pub flag: bool,
}

impl Timer {
    /// A timer that is stopped.
    pub fn power_on() -> Timer
        ensures value { result ≡ meaning.idle }
        ensures timer { IsTimer result }
    {
        Timer {
            run: false,
            next: 0,
            flag: false,
        }
    }

    /// Makes the overflows below a cycle, all at once, one each period.
    ///
    /// An overflow raises the flag where it is enabled.
    #[tactic(auto, using(crate::proofs::Overflows::settled_none, crate::proofs::Overflows::settled_due))]
    pub fn settle(&mut self, cycle: u64, period: u64, enabled: bool)
        requires timer { IsTimer self.old }
        requires cycle { cycle ≤ cycle_limit }
        requires least { 0 < period }
        requires most { period < 2 ^ 23 }
        ensures value { self.new ≡ meaning.settled cycle period enabled self.old }
        ensures timer { IsTimer self.new }
        ensures later { (later : ℕ) → cycle ≤ later
            → meaning.settled later period enabled self.new ≡ meaning.settled later period enabled self.old }
    {
        if !self.is_due(cycle) {
            return;
        }
        self.next = last_overflow(self.next, cycle, period) + period;
        self.flag = either(self.flag, enabled);
    }

    /// Whether an overflow is below a cycle.
    fn is_due(&self, cycle: u64) -> bool
        ensures { result ≡ meaning.is_due cycle self.now }
    {
        self.run && self.next < cycle
    }

    /// Lets it run or stops it, and clears its flag. One that starts overflows first a period later.
    #[tactic(auto, unfolding(crate::specs::Timers::controlled))]
    pub fn control(&mut self, cycle: u64, period: u64, run: bool, clears: bool)
        requires timer { IsTimer self.old }
        requires cycle { cycle ≤ cycle_limit }
        requires most { period < 2 ^ 23 }
        ensures value { self.new ≡ meaning.controlled cycle period run clears self.old }
        ensures timer { IsTimer self.new }
    {
        if !run {
            self.next = 0;
        } else if !self.run {
            self.next = cycle + period;
        }
        self.run = run;
        if clears {
            self.flag = false;
        }
    }

    /// Whether a read shows its flag: an overflow at its very cycle counts.
    #[tactic(auto, unfolding(crate::specs::Timers::shown))]
    pub fn shows(&self, cycle: u64, enabled: bool) -> bool
        ensures { result ≡ meaning.shown cycle enabled self.now }
    {
        self.flag || self.run && self.next == cycle && enabled
    }
}

/// The last overflow below a cycle, where the next one is below it.
#[tactic(auto, unfolding(crate::specs::Timers::last_overflow))]
fn last_overflow(next: u64, cycle: u64, period: u64) -> u64
    requires due { next < cycle }
    requires least { 0 < period }
    ensures value { result ≡ meaning.last_overflow next cycle period }
    ensures below { result < cycle }
{
    cycle - 1 - (cycle - 1 - next) % period
}

fn either(a: bool, b: bool) -> bool
    ensures { result ≡ (a || b) }
{
    a || b
}

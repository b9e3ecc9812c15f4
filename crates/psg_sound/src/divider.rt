ghost use Rattle.std.specs.Prelude.{◌≡◌, ◌<◌, ◌≤◌};
ghost use Rattle.std.specs.Fn.{iterate};
ghost use Rattle.psg_sound.specs.Voices.{divided};

/// A counter of ticks and the bit that it inverts each time it runs out.
///
/// Source: Texas Instruments, SN76489AN data sheet, tone generators.
#[derive(Clone, Copy)]
pub struct Divider {
    /// The ticks until the bit is inverted, 1 to 1,023.
    pub counter: u16,
    pub bit: bool,
}

impl Divider {
    /// Makes one tick. At 0 the counter starts again from `period`.
    pub fn tick(&mut self, period: u16)
        requires { 1 ≤ self.old.counter }
        ensures { self.new ≡ divided period self.old }
    {
        self.counter -= 1;
        if self.counter == 0 {
            self.counter = period;
            self.bit = !self.bit;
        }
    }
    /// Makes so many ticks: at once where the counter does not run out, or runs out at each.
    #[inline]
    #[tactic(auto, using(crate::proofs::Ticks::divided_still, crate::proofs::Ticks::divided_each))]
    pub fn pass(&mut self, period: u16, ticks: u64)
        requires low { 1 ≤ self.old.counter }
        requires high { self.old.counter < 1024 }
        requires period { 1 ≤ period }
        requires below { period < 1024 }
        ensures value { self.new ≡ iterate (divided period) ticks self.old }
        ensures low { 1 ≤ self.new.counter }
        ensures high { self.new.counter < 1024 }
    {
        if ticks < u64::from(self.counter) {
            self.counter -= ticks as u16;
        } else if period == 1 && self.counter == 1 {
            self.bit = self.bit != (ticks % 2 == 1);
        } else {
            self.pass_each(period, ticks);
        }
    }

    /// Makes so many ticks, one after the other.
    #[inline(never)]
    fn pass_each(&mut self, period: u16, ticks: u64)
        requires low { 1 ≤ self.old.counter }
        requires high { self.old.counter < 1024 }
        requires period { 1 ≤ period }
        requires below { period < 1024 }
        ensures value { self.new ≡ iterate (divided period) ticks self.old }
        ensures low { 1 ≤ self.new.counter }
        ensures high { self.new.counter < 1024 }
    {
        for _ in 0..ticks {
            self.tick(period);
        }
    }
}

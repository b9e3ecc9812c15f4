ghost use Rattle.std.specs.Prelude.{◌≡◌, ◌+◌, ◌*◌, ◌^◌, ◌<◌, ◌≤◌, ℕ, true};
ghost use Rattle.md_word.specs.Clock.{cycle_limit};
ghost use Rattle.fm_port.specs.Timers as meaning;
ghost use Rattle.fm_port.specs.Timers.{IsTimers};
ghost use Rattle.fm_port.specs.Timed.{AreTimed};
ghost use Rattle.fm_port.specs.PortSpelling.{are_saved_timers};

use crate::timer::Timer;
use md_word::clock::{BATCH, FM_SAMPLE};

/// Both timers, with their registers. A period is in master cycles.
///
/// Source: Yamaha, YM2608 Application Manual, timers.
#[derive(Clone, Copy)]
pub struct Timers {
    /// Register 24: bits 9 to 2 of timer A's number.
    pub high_a: u8,
    /// Register 25: bits 1 and 0.
    pub low_a: u8,
    /// Register 26: timer B's number.
    pub number_b: u8,
    /// Register 27.
    pub control: u8,
    pub a: Timer,
    pub b: Timer,
}

impl Timers {
    /// The timers at power-on: all 0.
    pub fn power_on() -> Timers
        ensures value { result ≡ meaning.at_power_on }
        ensures timers { IsTimers result }
    {
        let timer = Timer::power_on();
        Timers {
            high_a: 0,
            low_a: 0,
            number_b: 0,
            control: 0,
            a: timer,
            b: timer,
        }
    }

    /// Timer A's period: 1,008 cycles for each of 1,024 less its number.
    #[tactic(auto, unfolding(crate::specs::Timers::period_a))]
    fn period_a(&self) -> u64
        ensures value { result ≡ meaning.period_a self.now }
        ensures least { 0 < result }
        ensures most { result < 2 ^ 23 }
    {
        FM_SAMPLE * (1_024 - (u64::from(self.high_a) * 4 + u64::from(self.low_a) % 4))
    }

    /// Timer B's period: 16,128 cycles for each of 256 less its number.
    #[tactic(auto, unfolding(crate::specs::Timers::period_b))]
    fn period_b(&self) -> u64
        ensures value { result ≡ meaning.period_b self.now }
        ensures least { 0 < result }
        ensures most { result < 2 ^ 23 }
    {
        BATCH * (256 - u64::from(self.number_b))
    }

    /// Makes the overflows below a cycle.
    #[tactic(auto, unfolding(crate::specs::Timers::both_settled))]
    pub fn settle(&mut self, cycle: u64)
        requires timers { IsTimers self.old }
        requires cycle { cycle ≤ cycle_limit }
        ensures value { self.new ≡ meaning.both_settled cycle self.old }
        ensures timers { IsTimers self.new }
        ensures later { (later : ℕ) → cycle ≤ later
            → meaning.both_settled later self.new ≡ meaning.both_settled later self.old }
        ensures timed { AreTimed cycle self.old → are_saved_timers cycle self.new ≡ true }
    {
        let (period_a, period_b) = (self.period_a(), self.period_b());
        self.a.settle(cycle, period_a, self.control / 4 % 2 == 1);
        self.b.settle(cycle, period_b, self.control / 8 % 2 == 1);
    }

    /// Takes a byte for register 27: bits 0 and 1 run, 2 and 3 enable, 4 and 5 clear.
    #[tactic(auto, unfolding(crate::specs::Timers::both_controlled))]
    fn control(&mut self, cycle: u64, value: u8)
        requires timers { IsTimers self.old }
        requires cycle { cycle ≤ cycle_limit }
        ensures value { self.new ≡ meaning.both_controlled cycle value self.old }
        ensures timers { IsTimers self.new }
    {
        let (period_a, period_b) = (self.period_a(), self.period_b());
        self.a
            .control(cycle, period_a, value % 2 == 1, value / 16 % 2 == 1);
        self.b
            .control(cycle, period_b, value / 2 % 2 == 1, value / 32 % 2 == 1);
        self.control = value;
    }

    /// Takes a byte for one of the registers 24 to 27.
    #[tactic(auto, unfolding(crate::specs::Timers::stored))]
    fn store(&mut self, cycle: u64, register: u8, value: u8)
        requires timers { IsTimers self.old }
        requires cycle { cycle ≤ cycle_limit }
        ensures value { self.new ≡ meaning.stored cycle register value self.old }
        ensures timers { IsTimers self.new }
    {
        match register {
            0x24 => self.high_a = value,
            0x25 => self.low_a = value,
            0x26 => self.number_b = value,
            _ => self.control(cycle, value),
        }
    }

    /// Takes a byte for a register of port 0, which may be a timer's.
    #[tactic(auto, unfolding(crate::specs::Timers::timed))]
    pub fn write(&mut self, cycle: u64, register: u8, value: u8)
        requires timers { IsTimers self.old }
        requires cycle { cycle ≤ cycle_limit }
        ensures value { self.new ≡ meaning.timed cycle register value self.old }
        ensures timers { IsTimers self.new }
    {
        if register >= 0x24 && register <= 0x27 {
            self.settle(cycle);
            self.store(cycle, register, value);
        }
    }

    /// What a read shows at a cycle below which the overflows are made.
    #[tactic(auto, unfolding(crate::specs::Timers::status))]
    pub fn status(&self, cycle: u64) -> u8
        ensures value { result ≡ meaning.status cycle self.now }
    {
        let a = self.a.shows(cycle, self.control / 4 % 2 == 1);
        let b = self.b.shows(cycle, self.control / 8 % 2 == 1);
        u8::from(a) + 2 * u8::from(b)
    }
}

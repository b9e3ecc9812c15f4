ghost use Rattle.std.specs.Prelude.{◌≡◌, ◌<◌, ◌≤ℤ◌, pos, negsuc};
ghost use Rattle.std.specs.Fn.{iterate};
ghost use Rattle.psg_sound.specs.Voices.{IsTone, tone_level, tone_ticked, with_tone_period, with_tone_volume};

use crate::amplitude::signed_level;
use crate::divider::Divider;

/// A tone channel: a square wave. Source: Texas Instruments, SN76489AN data sheet, tone generators.
#[derive(Clone, Copy)]
pub struct Tone {
    /// The ticks of half a wave, below 1,024; 0 counts as 1.
    pub period: u16,
    /// The attenuation, 0 the loudest, 15 silence.
    pub volume: u8,
    pub divider: Divider,
}

impl Tone {
    /// Makes one tick.
    pub fn tick(&mut self)
        requires { IsTone self.old }
        ensures value { self.new ≡ tone_ticked self.old }
        ensures tone { IsTone self.new }
    {
        let period = self.period.max(1);
        self.divider.tick(period);
    }

    /// Makes so many ticks.
    #[inline]
    #[tactic(auto, using(crate::proofs::Ticks::tone_parts))]
    pub fn pass(&mut self, ticks: u64)
        requires { IsTone self.old }
        ensures value { self.new ≡ iterate tone_ticked ticks self.old }
        ensures tone { IsTone self.new }
    {
        let period = self.period.max(1);
        self.divider.pass(period, ticks);
    }

    /// Takes a byte for the period: a latch byte's low four bits are the low four of the period, a
    /// data byte's low six the high six.
    pub fn set_period(&mut self, value: u8)
        requires { IsTone self.old }
        ensures value { self.new ≡ with_tone_period value self.old }
        ensures tone { IsTone self.new }
    {
        let value = u16::from(value);
        if value >= 0x80 {
            self.period = self.period / 16 * 16 + value % 16;
        } else {
            self.period = value % 64 * 16 + self.period % 16;
        }
    }

    /// Takes a byte for the volume: its low four bits.
    pub fn set_volume(&mut self, value: u8)
        requires { IsTone self.old }
        ensures value { self.new ≡ with_tone_volume value self.old }
        ensures tone { IsTone self.new }
    {
        self.volume = value % 16;
    }

    /// What the channel adds to the level.
    pub fn level(&self) -> i32
        requires { IsTone self.now }
        ensures value { result ≡ tone_level self.now }
        ensures least { negsuc 2047 ≤ℤ result }
        ensures most { result ≤ℤ pos 2048 }
    {
        signed_level(self.divider.bit, self.volume)
    }
}

ghost use Rattle.std.specs.Prelude.{◌≡◌, ◌<◌, ◌≤◌, ◌≤ℤ◌, pos, negsuc};
ghost use Rattle.std.specs.Fn.{iterate};
ghost use Rattle.psg_sound.specs.Voices.{IsNoise, noise_level, noise_period, noise_ticked, shifted, with_noise_control, with_noise_volume};

use crate::amplitude::signed_level;
use crate::divider::Divider;

/// The noise channel: a shift register of 16 bits, of which bit 0 is the output.
///
/// Source: Texas Instruments, SN76489AN data sheet, noise generator; the 16 bits and their taps are
/// Sega's.
#[derive(Clone, Copy)]
pub struct Noise {
    /// Bit 2 chooses white noise, bits 1 and 0 the period.
    pub control: u8,
    /// The attenuation, 0 the loudest, 15 silence.
    pub volume: u8,
    pub divider: Divider,
    /// The shift register.
    pub register: u16,
}

impl Noise {
    /// The ticks between two turns of the divider's bit, where tone 3 has the period `tone3`.
    fn period(&self, tone3: u16) -> u16
        ensures { result ≡ noise_period self.now.control tone3 }
    {
        match self.control % 4 {
            0 => 16,
            1 => 32,
            2 => 64,
            _ => tone3.max(1),
        }
    }

    /// The register one place on. White noise takes in the parity of bits 0 and 3, periodic noise
    /// bit 0 alone.
    fn shifted(&self) -> u16
        ensures { result ≡ shifted self.now.control self.now.register }
    {
        let register = self.register;
        let mut taken = register % 2;
        if self.control / 4 % 2 == 1 {
            taken = (register % 2 + register / 8 % 2) % 2;
        }
        register / 2 + taken * 0x8000
    }

    /// Makes one tick; the register shifts where the divider's bit turns to 1.
    pub fn tick(&mut self, tone3: u16)
        requires noise { IsNoise self.old }
        requires period { tone3 < 1024 }
        ensures value { self.new ≡ noise_ticked tone3 self.old }
        ensures noise { IsNoise self.new }
    {
        let was = self.divider.bit;
        let period = self.period(tone3);
        self.divider.tick(period);
        if self.divider.bit && !was {
            self.register = self.shifted();
        }
    }

    /// Makes so many ticks: at once where the counter does not run out.
    #[inline]
    #[tactic(auto, using(crate::proofs::Ticks::noise_still))]
    pub fn pass(&mut self, tone3: u16, ticks: u64)
        requires noise { IsNoise self.old }
        requires period { tone3 < 1024 }
        ensures value { self.new ≡ iterate (noise_ticked tone3) ticks self.old }
        ensures noise { IsNoise self.new }
    {
        if ticks < u64::from(self.divider.counter) {
            self.divider.counter -= ticks as u16;
        } else {
            self.pass_each(tone3, ticks);
        }
    }

    /// Makes so many ticks, one after the other.
    #[inline(never)]
    fn pass_each(&mut self, tone3: u16, ticks: u64)
        requires noise { IsNoise self.old }
        requires period { tone3 < 1024 }
        ensures value { self.new ≡ iterate (noise_ticked tone3) ticks self.old }
        ensures noise { IsNoise self.new }
    {
        for _ in 0..ticks {
            self.tick(tone3);
        }
    }

    /// Takes a byte for the control: its low four bits. The register starts again.
    pub fn set_control(&mut self, value: u8)
        requires { IsNoise self.old }
        ensures value { self.new ≡ with_noise_control value self.old }
        ensures noise { IsNoise self.new }
    {
        self.control = value % 16;
        self.register = 0x8000;
    }

    /// Takes a byte for the volume: its low four bits.
    pub fn set_volume(&mut self, value: u8)
        requires { IsNoise self.old }
        ensures value { self.new ≡ with_noise_volume value self.old }
        ensures noise { IsNoise self.new }
    {
        self.volume = value % 16;
    }

    /// What the channel adds to the level.
    pub fn level(&self) -> i32
        requires { IsNoise self.now }
        ensures value { result ≡ noise_level self.now }
        ensures least { negsuc 2047 ≤ℤ result }
        ensures most { result ≤ℤ pos 2048 }
    {
        signed_level(self.register % 2 == 1, self.volume)
    }
}

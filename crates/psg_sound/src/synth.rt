ghost use Rattle.std.specs.Prelude.{◌≡◌, false, ◌+◌, ◌-◌, ◌*◌, ◌/◌, ◌^◌, ◌<◌, ◌≤◌, ◌≤ℤ◌, pos, negsuc, List, [], ◌∷◌, length, All};
ghost use Rattle.std.specs.Fn.{iterate};
ghost use Rattle.md_word.specs.Clock.{cycle_limit, psg_tick};
ghost use Rattle.psg_sound.specs.Synth.{IsSynth, at_power_on, level, ticked, written};
ghost use Rattle.psg_sound.specs.Batches.{AreDueFrom, after_batch, after_ticks, made_below, samples, ticks_below, written_all};
ghost use Rattle.psg_sound.specs.History.{Continues, IsNextBatch, chip_before};
ghost use Rattle.psg_sound.specs.declared.write.PsgWrite.{PsgWrite as Write};

use crate::divider::Divider;
use crate::noise::Noise;
use crate::tone::Tone;
use crate::write::{PsgList, PsgWrite};
use md_word::clock::{FM_SAMPLE, PSG_TICK};
use std::marker::Model;

/// The synthesis of the PSG: three tones and a noise. Contracts see its registers.
///
/// Source: Texas Instruments, SN76489AN data sheet; the 16-bit noise register is Sega's.
#[derive(Drop)]
pub struct PsgSynth {
    pub(crate) latch: u8,
    pub(crate) tone1: Tone,
    pub(crate) tone2: Tone,
    pub(crate) tone3: Tone,
    pub(crate) noise: Noise,
}

impl Model for PsgSynth {
    ghost use Rattle.psg_sound.specs.Synth.{Synth, IsSynth};

    ghost Value = { Synth };

    ghost view = { λ s. record { latch = s.latch; tone1 = s.tone1; tone2 = s.tone2; tone3 = s.tone3; noise = s.noise } };

    ghost invariant = { λ s. IsSynth (record {
      latch = s.latch;
      tone1 = s.tone1;
      tone2 = s.tone2;
      tone3 = s.tone3;
      noise = s.noise;
    }) };
}

impl PsgSynth {
    /// The chip at power-on: every channel silent.
    pub fn power_on() -> PsgSynth
        ensures value { result ≡ at_power_on }
        ensures synth { IsSynth result }
        ensures history { result ≡ chip_before [] 0 }
    {
        let divider = Divider {
            counter: 1,
            bit: false,
        };
        let tone = Tone {
            period: 0,
            volume: 15,
            divider,
        };
        PsgSynth {
            latch: 0,
            tone1: tone,
            tone2: tone,
            tone3: tone,
            noise: Noise {
                control: 0,
                volume: 15,
                divider,
                register: 0x8000,
            },
        }
    }

    /// Makes the sixteen samples from number `first` on, at most 2^50, with the writes of `list`.
    ///
    /// The chip has made the ticks below the first sample's cycle. It makes those below the cycle
    /// of sample `first` + 16, and all writes, in the list's order: each after the ticks up to its
    /// stamp and before the ticks and samples above it. A write after one of a later stamp comes
    /// at once after that one; a write stamped past the batch comes at its end.
    ///
    /// A sample is at least −8,192 and at most 8,192.
    pub fn batch(&mut self, first: u64, list: &PsgList, out: &mut [i32; 16])
        requires { first ≤ cycle_limit }
        ensures chip { self.new ≡ after_batch first self.old list.now.items }
        ensures samples { out.new ≡ samples first self.old list.now.items }
        ensures sixteen { length out.new ≡ 16 }
        ensures range { All (λ y. (negsuc 8191 ≤ℤ y) × (y ≤ℤ pos 8192)) out.new }
        ensures synth { IsSynth self.new }

        // From a chip as a history of writes left it, the samples are the levels
        // over that history and these writes, and the chip is as both leave it.
        ensures history { (history : List Write) → Continues history list.now.items first
            → self.old ≡ chip_before history first
            → IsNextBatch history list.now.items first self.new out.new }
    {
        let mut rest = list.as_slice();
        let mut ticks = ticks_below(FM_SAMPLE * first);
        for k in 0..16 {
            let cycle = FM_SAMPLE * (first + k as u64);
            rest = self.run(ticks, cycle / PSG_TICK, rest);
            ticks = cycle / PSG_TICK;
            rest = self.write_below(cycle, rest);
            out[k] = self.level();
        }
        let end = ticks_below(FM_SAMPLE * (first + 16));
        rest = self.run(ticks, end, rest);
        self.write_all(rest);
        // Opens the chip for its proof: that the registers are in their ranges.
        let _ = &self.latch;
    }

    /// Makes the ticks from after number `from` up to number `to`, each after the writes that come
    /// before it. Returns the writes that are still to come.
    fn run<'a>(&mut self, from: u64, to: u64, writes: &'a [PsgWrite]) -> &'a [PsgWrite]
        requires forward { from ≤ to }
        requires fits { psg_tick * to < 2 ^ 64 }
        ensures { record { chip = self.new; rest = result.now }
            ≡ after_ticks from (to - from) (record { chip = self.old; rest = writes.now }) }
    {
        if is_due(PSG_TICK * to, writes) {
            self.run_each(from, to, writes)
        } else {
            self.pass(to - from);
            writes
        }
    }

    /// The same, tick by tick.
    #[inline(never)]
    fn run_each<'a>(&mut self, from: u64, to: u64, writes: &'a [PsgWrite]) -> &'a [PsgWrite]
        requires forward { from ≤ to }
        requires fits { psg_tick * to < 2 ^ 64 }
        ensures { record { chip = self.new; rest = result.now }
            ≡ after_ticks from (to - from) (record { chip = self.old; rest = writes.now }) }
    {
        let mut rest = writes;
        for tick in from..to {
            rest = self.write_below(PSG_TICK * (tick + 1), rest);
            self.tick();
        }
        rest
    }

    /// Makes so many ticks, channel by channel: none of them changes what another one counts.
    #[tactic(auto, using(crate::proofs::Ticks::ticked_parts))]
    fn pass(&mut self, ticks: u64)
        ensures { self.new ≡ iterate ticked ticks self.old }
    {
        self.noise.pass(self.tone3.period, ticks);
        self.tone1.pass(ticks);
        self.tone2.pass(ticks);
        self.tone3.pass(ticks);
    }

    /// Makes the writes up to the first that is stamped `cycle` or later. Returns those that are
    /// still to come.
    fn write_below<'a>(&mut self, cycle: u64, writes: &'a [PsgWrite]) -> &'a [PsgWrite]
        ensures { record { chip = self.new; rest = result.now } ≡ made_below cycle self.old writes.now }
    {
        let mut rest = writes;
        while let [write, after @ ..] = rest {
            if write.key.cycle >= cycle {
                return rest;
            }
            self.write(write.value);
            rest = after;
        }
        rest
    }

    /// Makes these writes.
    fn write_all(&mut self, writes: &[PsgWrite])
        ensures { self.new ≡ written_all writes.now self.old }
    {
        for write in writes {
            self.write(write.value);
        }
    }

    /// Takes a byte. With bit 7 set, bits 6 to 4 select a register and the low four go there; else
    /// the low six bits go to the register that was selected last.
    #[tactic(auto, unfolding(crate::specs::Synth::written))]
    fn write(&mut self, value: u8)
        ensures { self.new ≡ written value self.old }
    {
        if value >= 0x80 {
            self.latch = value / 16 % 8;
        }
        match self.latch {
            0 => self.tone1.set_period(value),
            1 => self.tone1.set_volume(value),
            2 => self.tone2.set_period(value),
            3 => self.tone2.set_volume(value),
            4 => self.tone3.set_period(value),
            5 => self.tone3.set_volume(value),
            6 => self.noise.set_control(value),
            _ => self.noise.set_volume(value),
        }
    }

    /// Makes one tick of all four channels.
    #[tactic(auto, unfolding(crate::specs::Synth::ticked))]
    fn tick(&mut self)
        ensures { self.new ≡ ticked self.old }
    {
        self.noise.tick(self.tone3.period);
        self.tone1.tick();
        self.tone2.tick();
        self.tone3.tick();
    }

    /// The level: the sum over the channels.
    #[tactic(auto, unfolding(crate::specs::Synth::level))]
    fn level(&self) -> i32
        ensures value { result ≡ level self.now }
        ensures least { negsuc 8191 ≤ℤ result }
        ensures most { result ≤ℤ pos 8192 }
    {
        self.tone1.level() + self.tone2.level() + self.tone3.level() + self.noise.level()
    }
}

/// Whether a write comes before a cycle.
#[inline]
fn is_due(cycle: u64, writes: &[PsgWrite]) -> bool
    ensures { result ≡ false → AreDueFrom cycle writes.now }
{
    match writes {
        [] => false,
        [write, ..] => write.key.cycle < cycle,
    }
}

/// How many ticks are below a cycle; they are at 240, 480 and so on.
fn ticks_below(cycle: u64) -> u64
    ensures { result ≡ ticks_below cycle }
{
    cycle.saturating_sub(1) / PSG_TICK
}

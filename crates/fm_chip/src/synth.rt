ghost use Rattle.std.specs.Prelude.{◌≡◌, ◌+◌, ◌*◌, ◌<◌, ◌≤◌, List, [], ◌∷◌, length, All, true};
ghost use Rattle.md_word.specs.Clock.{cycle_limit};
ghost use Rattle.fm_chip.specs.Synth as meaning;
ghost use Rattle.fm_chip.specs.Synth.{IsIdle, IsSides, IsSynth, at_power_on, written, sides, sampled};
ghost use Rattle.fm_chip.specs.Batches.{after_batch, made_below, samples, written_all};
ghost use Rattle.fm_chip.specs.History.{Continues, IsNextBatch, chip_before};
ghost use Rattle.fm_port.specs.declared.write.FmWrite.{FmWrite as Write};

use crate::channels::{Channel, Moment};
use crate::kept::Kept;
use crate::keys::{keyed_channel, press};
use crate::latch::{own_latch, taken_latch};
use crate::lfo::Lfo;
use crate::mixing::{are_at_rest, rest_all, sample_all};
use crate::operator::Operator;
use crate::registers::Registers;
use fm_port::{FmList, FmWrite, RESET};
use fm_voice::EnvelopeState;
use md_word::clock::FM_SAMPLE;
use std::marker::Model;

/// The register of the low frequency oscillator.
const OSCILLATOR: usize = 0x22;

/// The register that puts the converter on.
const CONVERTER: usize = 0x2b;

/// The register of the keys.
const KEYS: u8 = 0x28;

/// The synthesis of the FM chip: six channels of four operators. Contracts see its registers.
///
/// Source: Yamaha, YM2608 Application Manual; Sega, Genesis Software Manual, FM registers.
#[derive(Drop)]
pub struct FmSynth {
    pub(crate) registers: Registers,
    pub(crate) latches: [u8; 9],
    pub(crate) lfo: Lfo,
    pub(crate) counter: u32,
    pub(crate) channels: [Channel; 6],
    /// What the registers say of the channels, as far as it is kept.
    pub(crate) kept: Kept,
}

impl Model for FmSynth {
    ghost use Rattle.fm_chip.specs.Synth.{Synth, IsSynth};
    ghost use Rattle.fm_chip.specs.Kept.{IsFresh};

    ghost Value = { Synth };

    ghost view = { λ s. record { registers = s.registers; latches = s.latches; lfo = s.lfo; counter = s.counter; channels = s.channels } };

    ghost invariant = { λ s. IsSynth (record {
      registers = s.registers;
      latches = s.latches;
      lfo = s.lfo;
      counter = s.counter;
      channels = s.channels;
    }) × IsFresh s.registers s.kept };
}

impl FmSynth {
    /// The chip at power-on: every operator silent.
    #[tactic(auto, unfolding(crate::specs::Synth::at_power_on))]
    pub fn power_on() -> FmSynth
        ensures value { result ≡ at_power_on }
        ensures synth { IsSynth result }
        ensures history { result ≡ chip_before [] 0 }
    {
        let operator = Operator {
            phase: 0,
            v: 1023,
            state: EnvelopeState::Release,
            on: false,
        };
        let channel = Channel {
            one: operator,
            two: operator,
            three: operator,
            four: operator,
            last: [0, 0],
        };
        FmSynth {
            registers: [0; 512],
            latches: [0; 9],
            lfo: Lfo { t: 0, count: 0 },
            counter: 0,
            channels: [channel; 6],
            kept: Kept::none(),
        }
    }

    /// Makes the sixteen samples from number `first` on, at most 2^50, with the writes of `list`.
    ///
    /// Each sample comes after the writes up to the first that is stamped at its cycle or later. The
    /// writes that are left come at the end. A sample is the sums of the left and the right side,
    /// each from −49,152 to 49,152.
    pub fn batch(&mut self, first: u64, list: &FmList, out: &mut [(i32, i32); 16])
        requires { first ≤ cycle_limit }
        ensures chip { self.new ≡ after_batch first self.old list.now.items }
        ensures samples { out.new ≡ samples first self.old list.now.items }
        ensures sixteen { length out.new ≡ 16 }
        ensures range { All IsSides out.new }
        ensures synth { IsSynth self.new }

        // From a chip as a history of writes left it, the samples are those over that
        // history and these writes, and the chip is as both leave it.
        ensures history { (history : List Write) → Continues history list.now.items first
            → self.old ≡ chip_before history first
            → IsNextBatch history list.now.items first self.new out.new }
    {
        let mut rest = list.as_slice();
        let idle = self.is_idle_through(rest);
        for k in 0..16 {
            let number = first + k as u64;
            rest = self.write_below(FM_SAMPLE * number, rest);
            out[k] = self.sample_by(number, idle);
        }
        self.write_all(rest);
        // Opens the chip for its proof: that the registers are in their ranges.
        let _ = &self.counter;
    }

    /// Makes the writes up to the first that is stamped `cycle` or later. Returns those that are
    /// still to come.
    fn write_below<'a>(&mut self, cycle: u64, writes: &'a [FmWrite]) -> &'a [FmWrite]
        ensures { record { chip = self.new; rest = result.now } ≡ made_below cycle self.old writes.now }
    {
        let mut rest = writes;
        while let [write, after @ ..] = rest {
            if write.key.cycle >= cycle {
                return rest;
            }
            self.write(write);
            rest = after;
        }
        rest
    }

    /// Makes these writes.
    fn write_all(&mut self, writes: &[FmWrite])
        ensures { self.new ≡ written_all writes.now self.old }
    {
        for write in writes {
            self.write(write);
        }
    }

    /// Whether nothing is heard while these writes are made, since there are none.
    fn is_idle_through(&self, writes: &[FmWrite]) -> bool
        ensures idle { result ≡ true → IsIdle self.now }
        ensures none { result ≡ true → writes.now ≡ [] }
    {
        if let [] = writes {
            return self.is_idle();
        }
        false
    }

    /// Whether all envelopes have reached the end of their release, with the converter off: then nothing is heard
    /// while nothing is written. A chip that is not idle may be silent too.
    pub fn is_idle(&self) -> bool
        ensures { result ≡ true → IsIdle self.now }
    {
        if self.registers[CONVERTER] >= 128 {
            return false;
        }
        are_at_rest(&self.channels)
    }

    /// Makes sample number `k`, of which nothing is heard where the chip is idle.
    fn sample_by(&mut self, k: u64, idle: bool) -> (i32, i32)
        requires idle { idle ≡ true → IsIdle self.old }
        ensures sides { result ≡ sides k self.old }
        ensures range { IsSides result }
        ensures after { self.new ≡ sampled k self.old }
        ensures idle { idle ≡ true → IsIdle self.new }
    {
        if idle { self.rest(k) } else { self.sample(k) }
    }

    /// Makes sample number `k` of an idle chip: apart, so that it stays out of the way of samples that sound.
    #[inline(never)]
    #[tactic(auto, unfolding(crate::specs::Synth::moment_of, crate::specs::Synth::counted, crate::specs::Synth::sampled))]
    fn rest(&mut self, k: u64) -> (i32, i32)
        requires { IsIdle self.old }
        ensures sides { result ≡ sides k self.old }
        ensures range { IsSides result }
        ensures after { self.new ≡ sampled k self.old }
        ensures idle { IsIdle self.new }
    {
        self.lfo.step(self.registers[OSCILLATOR]);
        if k % 3 == 0 {
            self.counter = (self.counter + 1) % 4096;
        }
        self.kept.renew(&self.registers, self.lfo.t / 4);
        rest_all(&mut self.channels, &self.kept.steps);
        (0, 0)
    }

    /// Makes sample number `k`: the sums of the left and the right side.
    #[tactic(auto, unfolding(crate::specs::Synth::moment_of, crate::specs::Synth::counted, crate::specs::Synth::sides, crate::specs::Synth::sampled))]
    fn sample(&mut self, k: u64) -> (i32, i32)
        ensures sides { result ≡ sides k self.old }
        ensures range { IsSides result }
        ensures after { self.new ≡ sampled k self.old }
    {
        self.lfo.step(self.registers[OSCILLATOR]);
        let ticks = k % 3 == 0;
        if ticks {
            self.counter = (self.counter + 1) % 4096;
        }
        let moment = Moment {
            ticks,
            counter: self.counter,
            t: self.lfo.t,
        };
        self.kept.renew(&self.registers, self.lfo.t / 4);
        sample_all(&mut self.channels, &self.registers, &moment, &self.kept)
    }

    /// Makes a write: a reset, a byte for a latch, or one for another register.
    #[tactic(auto, unfolding(crate::specs::Synth::written))]
    fn write(&mut self, write: &FmWrite)
        ensures { self.new ≡ written write.now self.old }
    {
        if write.port == RESET {
            *self = FmSynth::power_on();
            return;
        }
        match own_latch(write.port, write.register) {
            Some(n) => self.set_latch(n, write.value),
            None => self.put(write.port, write.register, write.value),
        }
    }

    /// Keeps a byte in a latch.
    #[tactic(auto, unfolding(crate::specs::Synth::with_latch))]
    fn set_latch(&mut self, n: usize, value: u8)
        requires { n < 9 }
        ensures { self.new ≡ meaning.with_latch n value self.old }
    {
        self.latches[n] = value;
    }

    /// Keeps a byte in a register.
    #[tactic(auto, unfolding(crate::specs::Synth::with_register))]
    fn set_register(&mut self, place: usize, value: u8)
        requires { place < 512 }
        ensures { self.new ≡ meaning.with_register place value self.old }
    {
        self.kept.forget(place);
        self.registers[place] = value;
    }

    /// Puts a byte into a register that is no latch; register 28 of port 0 sets keys.
    #[tactic(auto, unfolding(crate::specs::Synth::put))]
    fn put(&mut self, port: u8, register: u8, value: u8)
        requires { port < 2 }
        ensures { self.new ≡ meaning.put port register value self.old }
    {
        self.store(port, register, value);
        if port == 0 && register == KEYS {
            self.set_keys(value);
        }
    }

    /// Stores a byte; a register that takes a latch hands it to the register four further.
    #[tactic(auto, unfolding(crate::specs::Synth::stored))]
    fn store(&mut self, port: u8, register: u8, value: u8)
        requires { port < 2 }
        ensures { self.new ≡ meaning.stored port register value self.old }
    {
        let place = usize::from(port) * 256 + usize::from(register);
        if let Some(n) = taken_latch(port, register) {
            self.set_register(place + 4, self.latches[n]);
        }
        self.set_register(place, value);
    }

    /// Puts the keys that a byte sets on or off.
    #[tactic(auto, unfolding(crate::specs::Synth::with_keys))]
    fn set_keys(&mut self, value: u8)
        ensures { self.new ≡ meaning.with_keys value self.old }
    {
        if let Some(c) = keyed_channel(value) {
            press(&mut self.channels, &self.registers, value, c);
        }
    }
}

ghost use Rattle.std.specs.Prelude.{◌≡◌, ◌≢◌, ◌↔◌, ◌+◌, ◌≤◌, ◌++◌, ℕ, vec_len, vec_capacity, IfErr, IfOk, IsErrOf, Ok, Err};
ghost use Rattle.md_fields.specs.Items.{IsRight, Keeps};
ghost use Rattle.fm_chip.specs.Synth.{IsSynth, Synth};
ghost use Rattle.fm_chip.specs.SynthSpelling.{SpellsSynth, SynthInvalidAt, saved_synth_of, synth_bytes, synth_fields, synth_from, synth_size};

use crate::kept::Kept;
use crate::lfo::Lfo;
use crate::saved_operator::SavedFour;
use crate::saved_synth::{SavedLast, SavedSynth};
use crate::synth::FmSynth;
use md_word::Unspell;
use std::alloc::Global;

/// How many bytes of a saved state keep a synthesis.
pub const SYNTH_SIZE: usize = 741;

impl FmSynth {
    /// Appends the bytes of a saved state that keep this chip, `SYNTH_SIZE`. There is room for them. They are read
    /// again.
    pub fn spell(&self, _at: u64, into: &mut Vec<u8>)
        requires { vec_len into.old + synth_size ≤ vec_capacity into.old }
        ensures bytes { into.new.items ≡ into.old.items ++ synth_bytes self.now }
        ensures length { vec_len into.new ≡ vec_len into.old + synth_size }
        ensures room { vec_capacity into.old ≤ vec_capacity into.new }
        ensures kept { SpellsSynth (synth_bytes self.now) self.now }
    {
        let _ = &self.latches;
        self.saved().put(into);
    }

    /// The bytes of this chip are read again.
    pub fn is_read_again(&self)
        ensures { SpellsSynth (synth_bytes self.now) self.now }
    {
        let _ = &self.latches;
    }

    fn saved(&self) -> SavedSynth
        ensures { result ≡ saved_synth_of self.now }
    {
        SavedSynth {
            registers: self.registers,
            latches: self.latches,
            t: self.lfo.t as u8,
            count: self.lfo.count as u8,
            counter: self.counter as u16,
            four1: SavedFour::of(&self.channels[0]),
            four2: SavedFour::of(&self.channels[1]),
            four3: SavedFour::of(&self.channels[2]),
            four4: SavedFour::of(&self.channels[3]),
            four5: SavedFour::of(&self.channels[4]),
            four6: SavedFour::of(&self.channels[5]),
            last1: SavedLast::of(&self.channels[0]),
            last2: SavedLast::of(&self.channels[1]),
            last3: SavedLast::of(&self.channels[2]),
            last4: SavedLast::of(&self.channels[3]),
            last5: SavedLast::of(&self.channels[4]),
            last6: SavedLast::of(&self.channels[5]),
        }
    }

    /// The chip that the bytes of a saved state keep. It takes no memory, and fails with `Rule` alone.
    /// Bytes that are not 741 are refused at the lesser of their number and that, others at the offset of
    /// the first field whose rule fails. The oscillator's place is to be below 128 and its count below
    /// 108, the counter of the envelopes below 4,096, a phase below 2^20, an attenuation at most 1,023, a
    /// state 0 to 3, a key 0 or 1. The last outputs of a channel are from −8,192 to 8,191, and are
    /// refused at the older one.
    pub fn unspell(_alloc: Global, bytes: &[u8], _at: u64) -> Result<FmSynth, Unspell>
        ensures found { IfOk result (λ synth. SpellsSynth bytes.now synth) }
        ensures only { (synth : Synth) → SpellsSynth bytes.now synth → result ≡ Ok synth }
        ensures rule { (place : ℕ) → IsErrOf result (Unspell.Rule place) ↔ SynthInvalidAt bytes.now place }
        ensures memory { result ≢ Err Unspell.NoMemory }
    {
        match saved_of(bytes) {
            Ok(saved) => Ok(synth_of(&saved)),
            Err(place) => Err(Unspell::Rule {
                place: place as u64,
            }),
        }
    }
}

/// The chip of which these numbers are kept.
fn synth_of(saved: &SavedSynth) -> FmSynth
    requires { IsSynth (synth_from saved.now) }
    ensures { result ≡ synth_from saved.now }
{
    FmSynth {
        registers: saved.registers,
        latches: saved.latches,
        lfo: Lfo {
            t: u32::from(saved.t),
            count: u32::from(saved.count),
        },
        counter: u32::from(saved.counter),
        channels: saved.channels(),
        kept: Kept::none(),
    }
}

/// The numbers that the bytes keep, where the rules hold of them; else the offset of the refusal.
fn saved_of(bytes: &[u8]) -> Result<SavedSynth, usize>
    ensures found { IfOk result (λ saved. Keeps synth_fields bytes.now saved × IsRight synth_fields saved) }
    ensures refused { IfErr result (λ place. SynthInvalidAt bytes.now place) }
{
    if bytes.len() != SYNTH_SIZE {
        return Err(bytes.len().min(SYNTH_SIZE));
    }
    let saved = SavedSynth::read(bytes);
    match saved.invalid() {
        Some(place) => Err(place),
        None => Ok(saved),
    }
}

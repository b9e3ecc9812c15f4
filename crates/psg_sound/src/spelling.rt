ghost use Rattle.std.specs.Prelude.{◌≡◌, ◌≢◌, ◌↔◌, ◌+◌, ◌≤◌, ◌++◌, ℕ, List, [], map, true, vec_len, vec_capacity, IfErr, IfOk, IsErrOf, Ok, Err};
ghost use Rattle.md_fields.specs.Items.{IsRight, Keeps};
ghost use Rattle.sound_writes.specs.Keys.{are_kept};
ghost use Rattle.psg_sound.specs.Port.{IsPort};
ghost use Rattle.psg_sound.specs.PortSpelling.{PortInvalidAt, SpellsPort, key_of, port_bytes, port_size};
ghost use Rattle.psg_sound.specs.SynthSpelling.{SpellsSynth, SynthInvalidAt, saved_synth_of, synth_bytes, synth_fields, synth_size};
ghost use Rattle.psg_sound.specs.Synth.{Synth};
ghost use Rattle.psg_sound.specs.declared.write.PsgWrite.{PsgWrite as Write};

use crate::port::PsgPort;
use crate::saved_port::WRITE;
use crate::saved_synth::{SavedSynth, tone_from};
use crate::synth::PsgSynth;
use crate::write::{PsgList, PsgWrite};
use md_fields::{first_invalid, put, u16_at};
use md_word::Unspell;
use sound_writes::{MOST, are_saved, known_writes, put_count, put_writes, put_zeros, read_writes};
use std::alloc::Global;

/// How many bytes of a saved state keep a port.
pub const PORT_SIZE: usize = 10_242;

/// The offset of the writes, after their number.
const ENTRIES_OFFSET: usize = 2;

/// How many bytes of a saved state keep a synthesis.
pub const SYNTH_SIZE: usize = 26;

impl PsgPort {
    /// Appends the bytes of a saved state that keep this port, `PORT_SIZE`. There is room for them. Where the
    /// writes' keys are those of a state at a cycle, the bytes keep the port there.
    pub fn spell(&self, _at: u64, into: &mut Vec<u8>)
        requires { vec_len into.old + port_size ≤ vec_capacity into.old }
        ensures bytes { into.new.items ≡ into.old.items ++ port_bytes self.now }
        ensures length { vec_len into.new ≡ vec_len into.old + port_size }
        ensures room { vec_capacity into.old ≤ vec_capacity into.new }
        ensures kept { (at : ℕ) → are_kept at (map key_of self.now) ≡ true → SpellsPort at (port_bytes self.now) self.now }
    {
        self.is_read_again();
        let count = self.writes.len();
        put_count(count as u16, into);
        put_writes::<PsgWrite>(self.writes.as_slice(), into);
        put_zeros(WRITE * (MOST - count), into);
    }

    /// The bytes of this port are read again, where the writes' keys are those of a state at a cycle.
    pub fn is_read_again(&self)
        ensures { (at : ℕ) → are_kept at (map key_of self.now) ≡ true → SpellsPort at (port_bytes self.now) self.now }
    {
        known_writes::<PsgWrite>(self.writes.as_slice());
    }

    /// The port that the bytes of a saved state at a cycle keep. It takes no memory, and fails with `Rule`
    /// alone. Bytes that are not 10,242 are refused at the lesser of their number and that. Others are
    /// refused at 0 where the writes are more than 1,024, or an unused place is not 0. They are refused
    /// there, too, where the keys of the writes are none of the two processors', do not rise, are below
    /// the last batch before the cycle or not below the cycle, or are less than 28 cycles apart for the
    /// 68000 or 45 for the Z80.
    pub fn unspell(_alloc: Global, bytes: &[u8], at: u64) -> Result<PsgPort, Unspell>
        ensures found { IfOk result (λ port. SpellsPort at bytes.now port) }
        ensures only { (port : List Write) → SpellsPort at bytes.now port → result ≡ Ok port }
        ensures rule { (place : ℕ) → IsErrOf result (Unspell.Rule place) ↔ PortInvalidAt at bytes.now place }
        ensures memory { result ≢ Err Unspell.NoMemory }
    {
        let mut port = PsgPort::power_on();
        match port.restore(bytes, at) {
            Ok(()) => Ok(port),
            Err(fault) => Err(fault),
        }
    }

    /// Makes this port the one that the bytes keep, in its place, and refuses them as `unspell` does. It
    /// holds no write after a refusal.
    pub fn restore(&mut self, bytes: &[u8], at: u64) -> Result<(), Unspell>
        ensures found { IfOk result (λ nothing. SpellsPort at bytes.now self.new) }
        ensures only { (port : List Write) → SpellsPort at bytes.now port → (result ≡ Ok tt) × (self.new ≡ port) }
        ensures rule { (place : ℕ) → IsErrOf result (Unspell.Rule place) ↔ PortInvalidAt at bytes.now place }
        ensures memory { result ≢ Err Unspell.NoMemory }
        ensures empty { IfErr result (λ fault. self.new ≡ []) }
        ensures port { IsPort self.new }
    {
        match port_of(bytes, at, &mut self.writes) {
            Ok(()) => Ok(()),
            Err(place) => {
                self.writes.clear();
                Err(Unspell::Rule {
                    place: place as u64,
                })
            }
        }
    }
}

/// Makes a list the writes that the bytes keep, where the rules hold; else the offset of the refusal.
fn port_of(bytes: &[u8], at: u64, into: &mut PsgList) -> Result<(), usize>
    ensures found { IfOk result (λ nothing. SpellsPort at bytes.now into.new.items) }
    ensures refused { IfErr result (λ place. PortInvalidAt at bytes.now place) }
{
    if bytes.len() != PORT_SIZE {
        return Err(bytes.len().min(PORT_SIZE));
    }
    let count = usize::from(u16_at(bytes, 0));
    let entries = &bytes[ENTRIES_OFFSET..PORT_SIZE];
    if !are_saved::<PsgWrite>(entries, count, at) {
        return Err(0);
    }
    read_writes::<PsgWrite>(entries, count, into);
    Ok(())
}

impl PsgSynth {
    /// Appends the bytes of a saved state that keep this chip, `SYNTH_SIZE`. There is room for them. They are read
    /// again.
    #[tactic(auto, using(crate::proofs::SynthKept::synth_spelled))]
    pub fn spell(&self, _at: u64, into: &mut Vec<u8>)
        requires { vec_len into.old + synth_size ≤ vec_capacity into.old }
        ensures bytes { into.new.items ≡ into.old.items ++ synth_bytes self.now }
        ensures length { vec_len into.new ≡ vec_len into.old + synth_size }
        ensures room { vec_capacity into.old ≤ vec_capacity into.new }
        ensures kept { SpellsSynth (synth_bytes self.now) self.now }
    {
        let _ = &self.latch;
        put(&self.saved().fields(), into);
    }

    /// The bytes of this chip are read again.
    #[tactic(auto, using(crate::proofs::SynthKept::synth_spelled))]
    pub fn is_read_again(&self)
        ensures { SpellsSynth (synth_bytes self.now) self.now }
    {
        let _ = &self.latch;
    }

    fn saved(&self) -> SavedSynth
        ensures { result ≡ saved_synth_of self.now }
    {
        SavedSynth {
            latch: self.latch,
            period1: self.tone1.period,
            period2: self.tone2.period,
            period3: self.tone3.period,
            control: self.noise.control,
            volume1: self.tone1.volume,
            volume2: self.tone2.volume,
            volume3: self.tone3.volume,
            volume4: self.noise.volume,
            counter1: self.tone1.divider.counter,
            counter2: self.tone2.divider.counter,
            counter3: self.tone3.divider.counter,
            counter4: self.noise.divider.counter,
            bit1: u8::from(self.tone1.divider.bit),
            bit2: u8::from(self.tone2.divider.bit),
            bit3: u8::from(self.tone3.divider.bit),
            bit4: u8::from(self.noise.divider.bit),
            register: self.noise.register,
        }
    }

    /// The chip that the bytes of a saved state keep. It takes no memory, and fails with `Rule` alone.
    /// Bytes that are not 26 are refused at the lesser of their number and that. Others are refused at the
    /// offset of the first field whose rule fails: the latch is to be below 8, periods below 1,024,
    /// control and volumes below 16, counters 1 to 1,023, and the bits 0 or 1.
    pub fn unspell(_alloc: Global, bytes: &[u8], _at: u64) -> Result<PsgSynth, Unspell>
        ensures found { IfOk result (λ synth. SpellsSynth bytes.now synth) }
        ensures only { (synth : Synth) → SpellsSynth bytes.now synth → result ≡ Ok synth }
        ensures rule { (place : ℕ) → IsErrOf result (Unspell.Rule place) ↔ SynthInvalidAt bytes.now place }
        ensures memory { result ≢ Err Unspell.NoMemory }
    {
        match saved_of(bytes) {
            Ok(saved) => Ok(PsgSynth {
                latch: saved.latch,
                tone1: tone_from(saved.period1, saved.volume1, saved.counter1, saved.bit1),
                tone2: tone_from(saved.period2, saved.volume2, saved.counter2, saved.bit2),
                tone3: tone_from(saved.period3, saved.volume3, saved.counter3, saved.bit3),
                noise: saved.noise(),
            }),
            Err(place) => Err(Unspell::Rule {
                place: place as u64,
            }),
        }
    }
}

/// The numbers that the bytes keep, where the rules hold of them; else the offset of the refusal.
fn saved_of(bytes: &[u8]) -> Result<SavedSynth, usize>
    ensures found { IfOk result (λ saved. Keeps synth_fields bytes.now saved × IsRight synth_fields saved) }
    ensures refused { IfErr result (λ place. SynthInvalidAt bytes.now place) }
{
    if bytes.len() != SYNTH_SIZE {
        return Err(bytes.len().min(SYNTH_SIZE));
    }
    let saved = SavedSynth::read(bytes);
    match first_invalid(&saved.fields()) {
        Some(place) => Err(place),
        None => Ok(saved),
    }
}

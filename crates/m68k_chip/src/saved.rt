ghost use Rattle.std.specs.Prelude.{◌≡◌, ◌≤◌, ℕ, Bool, false, length, IfErr, IfOk};
ghost use Rattle.md_fields.specs.Places.{Stand};
ghost use Rattle.m68k_access.specs.Memory.{ram_size};
ghost use Rattle.m68k_chip.specs.Numbers.{numbers_of, state_from};
ghost use Rattle.m68k_chip.specs.Saved.{fields_by};
ghost use Rattle.m68k_chip.specs.Spelling.{InvalidAt, IsKept, chip_size, ram_in};
ghost use Rattle.m68k_chip.specs.States.{state_of};

use crate::known::known_regs;
use crate::numbers::{padded, stage_number, stage_of};
use crate::resuming::first_answers;
use crate::sequencer::Sequencer;
use m68k_access::memory::RAM_SIZE;
use m68k_exec::Predicted;
use md_fields::{first_invalid, u8_at, u16_at, u32_at, u64_at, words_at};
use md_word::{Regs, Transfer};
use rom_header::Cart;
use std::marker::Model;

/// How many bytes of a saved state keep a 68000.
pub const CHIP_SIZE: usize = RAM + RAM_SIZE;

/// Where work RAM is among them.
pub const RAM: usize = 178;

/// The numbers that a saved state keeps of the 68000, whatever they are, in their order. Cycles are
/// master cycles.
#[derive(Drop)]
pub struct Saved68<'a> {
    pub(crate) next: u64,
    /// 0 a sample, 1 an access, 2 a word of a transfer.
    pub(crate) stage: u8,
    pub(crate) start: u64,
    pub(crate) regs: Regs,
    pub(crate) stopped: u8,
    pub(crate) halted: u8,
    pub(crate) trace: u8,
    /// The start of what halted it.
    pub(crate) since: u64,
    pub(crate) cause: u8,
    /// How many of the answers there are.
    pub(crate) count: u8,
    pub(crate) answers: [u16; 32],
    pub(crate) transfer: Transfer,
    pub(crate) ram: &'a [u8; RAM_SIZE],
}

impl<'a> Model for Saved68<'a> {
    ghost use Rattle.std.specs.Prelude.{slice_index};
    ghost use Rattle.m68k_chip.specs.Numbers.{AreSizes, Numbers68};

    ghost Value = { Numbers68 };

    ghost view = { λ s. record {
      next = s.next;
      stage = s.stage;
      start = s.start;
      d0 = slice_index s.regs.d 0;
      d1 = slice_index s.regs.d 1;
      d2 = slice_index s.regs.d 2;
      d3 = slice_index s.regs.d 3;
      d4 = slice_index s.regs.d 4;
      d5 = slice_index s.regs.d 5;
      d6 = slice_index s.regs.d 6;
      d7 = slice_index s.regs.d 7;
      a0 = slice_index s.regs.a 0;
      a1 = slice_index s.regs.a 1;
      a2 = slice_index s.regs.a 2;
      a3 = slice_index s.regs.a 3;
      a4 = slice_index s.regs.a 4;
      a5 = slice_index s.regs.a 5;
      a6 = slice_index s.regs.a 6;
      usp = s.regs.usp;
      ssp = s.regs.ssp;
      pc = s.regs.pc;
      sr = s.regs.sr;
      stopped = s.stopped;
      halted = s.halted;
      trace = s.trace;
      since = s.since;
      cause = s.cause;
      count = s.count;
      answers = s.answers;
      source = s.transfer.source;
      words = s.transfer.words;
      cost = s.transfer.cost;
      ram = s.ram.now;
    } };

    ghost invariant = { λ s. AreSizes s.regs s.answers s.ram.now };
}

impl<'a> Saved68<'a> {
    /// What is kept of the 68000 between two of its events.
    pub fn of(sequencer: &Sequencer, ram: &'a [u8; RAM_SIZE]) -> Saved68<'a>
        requires { length ram.now ≡ ram_size }
        ensures { result ≡ numbers_of (state_of sequencer.now ram.now) }
    {
        known_regs(&sequencer.regs);
        Saved68 {
            next: sequencer.next,
            stage: stage_number(sequencer.stage),
            start: sequencer.start,
            regs: sequencer.regs,
            stopped: u8::from(sequencer.stopped),
            halted: u8::from(sequencer.halted.is_some()),
            trace: u8::from(sequencer.trace),
            since: sequencer.halted.unwrap_or(0),
            cause: sequencer.cause,
            count: sequencer.answers.len() as u8,
            answers: padded(sequencer.answers.as_slice()),
            transfer: sequencer.transfer,
            ram,
        }
    }

    /// The numbers that are in the bytes.
    #[tactic(auto, unfolding(md_fields::specs::Places::Stand))]
    fn read(bytes: &'a [u8]) -> Saved68<'a>
        requires { length bytes.now ≡ chip_size }
        ensures stands { (at : ℕ) (holds : Bool) → Stand 0 (fields_by at holds result) bytes.now }
        ensures ram { result.ram ≡ ram_in bytes.now }
    {
        Saved68 {
            next: u64_at(bytes, 0),
            stage: u8_at(bytes, 8),
            start: u64_at(bytes, 9),
            regs: Regs {
                d: [
                    u32_at(bytes, 17),
                    u32_at(bytes, 21),
                    u32_at(bytes, 25),
                    u32_at(bytes, 29),
                    u32_at(bytes, 33),
                    u32_at(bytes, 37),
                    u32_at(bytes, 41),
                    u32_at(bytes, 45),
                ],
                a: [
                    u32_at(bytes, 49),
                    u32_at(bytes, 53),
                    u32_at(bytes, 57),
                    u32_at(bytes, 61),
                    u32_at(bytes, 65),
                    u32_at(bytes, 69),
                    u32_at(bytes, 73),
                ],
                usp: u32_at(bytes, 77),
                ssp: u32_at(bytes, 81),
                pc: u32_at(bytes, 85),
                sr: u16_at(bytes, 89),
            },
            stopped: u8_at(bytes, 91),
            halted: u8_at(bytes, 92),
            trace: u8_at(bytes, 93),
            since: u64_at(bytes, 94),
            cause: u8_at(bytes, 102),
            count: u8_at(bytes, 103),
            answers: words_at(bytes, 104),
            transfer: Transfer {
                source: u32_at(bytes, 168),
                words: u32_at(bytes, 172),
                cost: u16_at(bytes, 176),
            },
            ram: ram_at(bytes),
        }
    }

    /// The 68000 of which these numbers are kept. What it waits for is not known yet.
    fn sequencer(&self) -> Sequencer
        requires { self.now.count ≤ 31 }
        ensures state { state_of result self.now.ram ≡ state_from self.now }
        ensures unknown { result.predicted.known ≡ false }
    {
        Sequencer {
            regs: self.regs,
            next: self.next,
            stage: stage_of(self.stage),
            start: self.start,
            stopped: self.stopped == 1,
            trace: self.trace == 1,
            halted: self.halted_since(),
            cause: self.cause,
            answers: first_answers(&self.answers, usize::from(self.count)),
            transfer: self.transfer,
            request: None,
            predicted: Predicted::nothing(),
        }
    }

    fn halted_since(&self) -> Option<u64>
        ensures { result ≡ (state_from self.now).halted }
    {
        if self.halted == 1 {
            Some(self.since)
        } else {
            None
        }
    }

    /// The 68000 that the bytes keep, with the request that it waits for, where all rules hold. Else the offset
    /// of the first field whose rule fails, or the lesser of the two lengths where the length is wrong.
    pub fn checked(bytes: &'a [u8], at: u64, cart: &Cart) -> Result<Sequencer, usize>
        ensures found { IfOk result (λ s. IsKept cart.now at bytes.now (state_of s (ram_in bytes.now)) s.request s.predicted) }
        ensures refused { IfErr result (λ place. InvalidAt cart.now at bytes.now place) }
    {
        if bytes.len() != CHIP_SIZE {
            return Err(bytes.len().min(CHIP_SIZE));
        }
        let saved = Saved68::read(bytes);
        if let Some(place) = first_invalid(&saved.fields(at, true)) {
            return Err(place);
        }
        let mut sequencer = saved.sequencer();
        if sequencer.resumes(cart, saved.ram) {
            Ok(sequencer)
        } else {
            Err(RAM)
        }
    }
}

/// Work RAM as it is in the bytes.
fn ram_at(bytes: &[u8]) -> &[u8; RAM_SIZE]
    requires { length bytes.now ≡ chip_size }
    ensures value { result.now ≡ ram_in bytes.now }
    ensures size { length result.now ≡ ram_size }
{
    match bytes[RAM..CHIP_SIZE].as_array() {
        Some(ram) => ram,
        None => unreachable!(),
    }
}

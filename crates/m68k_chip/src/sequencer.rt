ghost use Rattle.std.specs.Prelude.{◌≡◌, ◌+◌, ◌^◌, ◌<◌, ℕ, List, length, replicate};
ghost use Rattle.md_word.specs.Clock.{cycle_limit};
ghost use Rattle.rom_header.specs.Cartridge.{IsImage};
ghost use Rattle.m68k_access.specs.Memory.{ram_size};
ghost use Rattle.m68k_chip.specs.Events as events;
ghost use Rattle.m68k_chip.specs.States.{long_in, power_on, state_of};

use crate::stage::Stage;
use arrayvec::ArrayVec;
use m68k_exec::Predicted;
use md_word::clock::MAIN_GAP;
use md_word::{Regs, Request68, Transfer};

/// The master cycles from a sample to the first access of what it carries out, from one access to
/// the next, and for which a 68000 waits that is stopped or halted.
pub const STEP: u64 = MAIN_GAP;

/// The status register at power-on: supervisor mode, and the interrupt mask at 7.
const RESET_STATUS: u16 = 0x2700;

/// A transfer of which no word is left.
pub const NONE_LEFT: Transfer = Transfer {
    source: 0,
    words: 0,
    cost: 0,
};

/// The registers of the 68000, and where it is between two of its events.
#[derive(Drop)]
pub struct Sequencer {
    pub regs: Regs,
    /// The cycle of the next event.
    pub next: u64,
    /// What the next event is.
    pub stage: Stage,
    /// The cycle at which that began whose access is next, else `next`.
    pub start: u64,
    pub stopped: bool,
    /// A trace is pending.
    pub trace: bool,
    /// The start of the instruction that halted it.
    pub halted: Option<u64>,
    /// What is carried out at an access: 0 an instruction, 4 or 6 an interrupt of that level, 8 a
    /// trace.
    pub cause: u8,
    /// What its accesses have answered so far.
    pub answers: ArrayVec<u16, 32>,
    /// The words of a transfer that are left.
    pub transfer: Transfer,
    /// The request that waits for its answer at an access; at other events it may be any that did.
    pub request: Option<Request68>,
    /// What follows the answer, where that is known.
    pub predicted: Predicted,
}

/// The long at an offset of a cartridge, its high byte first.
fn long_at(image: &[u8], at: usize) -> u32
    requires { at + 3 < length image.now }
    ensures { result ≡ long_in image.now at }
{
    u32::from(image[at]) * 0x100_0000
        + u32::from(image[at + 1]) * 0x1_0000
        + u32::from(image[at + 2]) * 0x100
        + u32::from(image[at + 3])
}

impl Sequencer {
    /// The 68000 at power-on, whose work RAM is 0.
    #[tactic(auto, unfolding(crate::specs::States::power_on))]
    pub fn power_on(image: &[u8]) -> Sequencer
        requires { IsImage image.now }
        ensures { state_of result (replicate ram_size 0) ≡ power_on image.now }
    {
        Sequencer {
            regs: Regs {
                d: [0; 8],
                a: [0; 7],
                usp: 0,
                ssp: long_at(image, 0),
                pc: long_at(image, 4),
                sr: RESET_STATUS,
            },
            next: 0,
            stage: Stage::Sample,
            start: 0,
            stopped: false,
            trace: false,
            halted: None,
            cause: 0,
            answers: ArrayVec::new(),
            transfer: NONE_LEFT,
            request: None,
            predicted: Predicted::nothing(),
        }
    }

    /// Rests until a sample at this cycle.
    pub fn rest_at_sample(&mut self, cycle: u64)
        ensures { (ram : List ℕ) → state_of self.new ram ≡ events.at_sample (state_of self.old ram) cycle }
    {
        self.next = cycle;
        self.start = cycle;
        self.stage = Stage::Sample;
    }

    /// Rests until a word of a transfer at this cycle.
    pub fn rest_at_word(&mut self, cycle: u64)
        ensures { (ram : List ℕ) → state_of self.new ram ≡ events.at_word (state_of self.old ram) cycle }
    {
        self.next = cycle;
        self.start = cycle;
        self.stage = Stage::Word;
    }

    /// Continues from the end of what was carried out: to the words of a transfer that it started,
    /// else to the next sample.
    pub fn rest(&mut self, end: u64)
        requires { end < 2 ^ 60 }
        ensures { (ram : List ℕ) → state_of self.new ram ≡ events.rested (state_of self.old ram) end }
    {
        let first = end + u64::from(self.transfer.cost);
        if self.transfer.words == 0 {
            self.rest_at_sample(end);
        } else {
            self.rest_at_word(first);
        }
    }

    /// Does nothing until the next sample.
    pub fn wait(&mut self)
        requires { self.old.start < cycle_limit }
        ensures { (ram : List ℕ) → state_of self.new ram ≡ events.waited (state_of self.old ram) }
    {
        let cycle = self.start + STEP;
        self.rest_at_sample(cycle);
    }
}

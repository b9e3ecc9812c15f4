//! A sample of the interrupt level: what the 68000 finds there, and the event that follows.
ghost use Rattle.std.specs.Prelude.{◌≡◌, ◌+◌, ◌*◌, ◌<◌, ◌≤◌, ℕ, List, []};
ghost use Rattle.md_word.specs.Clock as clock;
ghost use Rattle.md_word.specs.Clock.{cycle_limit};
ghost use Rattle.m68k_exec.specs.Sample.Caches.{IsCacheOf};
ghost use Rattle.m68k_chip.specs.Cases as cases;
ghost use Rattle.m68k_chip.specs.Events as events;
ghost use Rattle.m68k_chip.specs.Events.{begun, went_on};
ghost use Rattle.m68k_chip.specs.Held.{IsPredicted, WaitsFor};
ghost use Rattle.m68k_chip.specs.States.{state_of};

use crate::case::Case;
use crate::sequencer::{STEP, Sequencer};
use m68k_access::memory::RAM_SIZE;
use m68k_exec::{DecodeCache, Progress};
use rom_header::Cart;

impl Sequencer {
    /// What the next sample finds at this interrupt level.
    #[tactic(auto, unfolding(crate::specs::Cases::case_of))]
    pub fn case_at(&self, level: u8) -> Case
        ensures { (ram : List ℕ) → result ≡ cases.case_of (state_of self.now ram) level }
    {
        let mask = self.regs.sr / 0x100 % 8;
        if self.halted.is_some() {
            Case::Halted
        } else if self.trace {
            Case::Trace
        } else if mask < u16::from(level) {
            Case::Interrupt(level)
        } else if self.stopped {
            Case::Stopped
        } else {
            Case::Instruction
        }
    }

    /// Whether the next sample at this interrupt level does nothing, and those after it neither.
    pub fn rests(&self, level: u8) -> bool
        ensures { (ram : List ℕ) → result ≡ cases.is_rest (cases.case_of (state_of self.now ram) level) }
    {
        self.case_at(level).is_rest()
    }

    /// Does nothing at the next sample and at those below cycle `end` after it; answers how many samples
    /// that were.
    pub fn rest_ahead(&mut self, end: u64) -> u64
        requires start { self.old.start < cycle_limit }
        requires end { end ≤ cycle_limit }
        ensures samples { result ≡ 1 + clock.gaps_to events.step (self.old.start + events.step) end }
        ensures state { (ram : List ℕ) → state_of self.new ram ≡ events.at_sample (state_of self.old ram)
            (self.old.start + events.step + events.step * clock.gaps_to events.step (self.old.start + events.step) end) }
    {
        let first = self.start + STEP;
        let steps = end.saturating_sub(first).div_ceil(STEP);
        self.rest_at_sample(first + STEP * steps);
        1 + steps
    }

    /// Begins what a sample carries out: 0 the instruction, else the level of an interrupt, 8 a trace.
    #[inline(always)]
    fn begin_with(
        &mut self,
        cause: u8,
        cart: &Cart,
        ram: &mut [u8; RAM_SIZE],
        cache: &mut DecodeCache,
        progress: &mut Progress,
    )
        requires start { self.old.start < cycle_limit }
        requires answers { self.old.answers.items ≡ [] }
        requires cache { IsCacheOf cart.now cache.old }
        ensures cache { IsCacheOf cart.now cache.new }
        ensures state { state_of self.new ram.new ≡ went_on cart.now (state_of self.old ram.old) cause [] }
        ensures quiet { progress.new.writes.items ≡ [] → ram.new ≡ ram.old }
        ensures waiting { WaitsFor self.new.stage cart.now (state_of self.new ram.new) self.new.request }
        ensures predicted { IsPredicted self.new.stage cart.now (state_of self.new ram.new) self.new.predicted }
    {
        if cause == 0 {
            self.begin_instruction(cart, ram, cache, progress);
        } else {
            self.go_on(cause, cart, ram, cache, progress);
        }
    }

    /// Continues from a sample at this interrupt level to the next event.
    #[tactic(auto, unfolding(crate::specs::Events::begun))]
    pub fn begin(
        &mut self,
        level: u8,
        cart: &Cart,
        ram: &mut [u8; RAM_SIZE],
        cache: &mut DecodeCache,
        progress: &mut Progress,
    )
        requires start { self.old.start < cycle_limit }
        requires answers { self.old.answers.items ≡ [] }
        requires cache { IsCacheOf cart.now cache.old }
        ensures cache { IsCacheOf cart.now cache.new }
        ensures state { state_of self.new ram.new ≡ begun cart.now (state_of self.old ram.old) level }
        ensures quiet { progress.new.writes.items ≡ [] → ram.new ≡ ram.old }
        ensures waiting { WaitsFor self.new.stage cart.now (state_of self.new ram.new) self.new.request }
        ensures predicted { IsPredicted self.new.stage cart.now (state_of self.new ram.new) self.new.predicted }
    {
        match self.case_at(level).cause() {
            Some(cause) => self.begin_with(cause, cart, ram, cache, progress),
            None => self.wait(),
        }
    }
}

ghost use Rattle.std.specs.Prelude.{◌≡◌, ◌^◌, ◌<◌, ℕ, List, false, None, IsTrue};
ghost use Rattle.m68k_chip.specs.Iterations.{reading, sampling};
ghost use Rattle.m68k_chip.specs.States.{none_left, state_of};

use crate::sequencer::{NONE_LEFT, STEP, Sequencer};
use crate::stage::Stage;
use md_word::{Regs, Request68};

impl Sequencer {
    /// Whether it is at the first access of an instruction, with nothing else to come.
    pub fn is_reading(&self) -> bool
        ensures { (ram : List ℕ) → IsTrue result → state_of self.now ram ≡ reading ram self.now.regs self.now.start }
    {
        matches!(self.stage, Stage::Access)
            && self.next >= self.start
            && self.next - self.start == STEP
            && self.answers.is_empty()
            && self.has_nothing_else()
    }

    /// Whether the request that waits at an access reads.
    #[inline(always)]
    pub fn reads(&self) -> bool {
        matches!(
            self.request,
            Some(Request68::Read8(_) | Request68::Read16(_))
        )
    }

    /// Whether it is at a sample, with nothing else to come.
    pub fn is_sampling(&self) -> bool
        ensures { (ram : List ℕ) → IsTrue result → state_of self.now ram ≡ sampling ram self.now.regs self.now.start }
    {
        matches!(self.stage, Stage::Sample)
            && self.next == self.start
            && self.answers.is_empty()
            && self.has_nothing_else()
    }

    /// Whether it continues by an instruction, with no trace and no transfer to come.
    fn has_nothing_else(&self) -> bool
        ensures { IsTrue result → (self.now.stopped ≡ false) × (self.now.trace ≡ false) × (self.now.halted ≡ None) × (self.now.cause ≡ 0) × (self.now.transfer ≡ none_left) }
    {
        !self.stopped
            && !self.trace
            && self.halted.is_none()
            && self.cause == 0
            && self.transfer == NONE_LEFT
    }

    /// Goes from the first access of an instruction, whose answer leaves these registers, to the sample after it.
    #[inline(always)]
    pub fn stand_after(&mut self, regs: &Regs, cycle: u64)
        requires { (ram : List ℕ) → state_of self.old ram ≡ reading ram self.old.regs self.old.start }
        ensures state { (ram : List ℕ) → state_of self.new ram ≡ sampling ram regs.now cycle }
        ensures request { self.new.request ≡ self.old.request }
        ensures predicted { self.new.predicted ≡ self.old.predicted }
    {
        self.regs = *regs;
        self.next = cycle;
        self.start = cycle;
        self.stage = Stage::Sample;
    }

    /// Goes from a sample to the first access of an instruction that begins at this cycle with these registers.
    #[inline(always)]
    pub fn read_again(&mut self, regs: &Regs, start: u64)
        requires sampling { (ram : List ℕ) → state_of self.old ram ≡ sampling ram self.old.regs self.old.start }
        requires start { start < 2 ^ 60 }
        ensures state { (ram : List ℕ) → state_of self.new ram ≡ reading ram regs.now start }
        ensures request { self.new.request ≡ self.old.request }
        ensures predicted { self.new.predicted ≡ self.old.predicted }
    {
        self.regs = *regs;
        self.start = start;
        self.next = start + STEP;
        self.stage = Stage::Access;
    }

    /// Goes from the first access of an instruction to the same access of one that begins at this cycle with the same
    /// registers.
    #[inline(always)]
    pub fn read_later(&mut self, start: u64)
        requires reading { (ram : List ℕ) → state_of self.old ram ≡ reading ram self.old.regs self.old.start }
        requires start { start < 2 ^ 60 }
        ensures state { (ram : List ℕ) → state_of self.new ram ≡ reading ram self.old.regs start }
        ensures request { self.new.request ≡ self.old.request }
        ensures predicted { self.new.predicted ≡ self.old.predicted }
    {
        self.start = start;
        self.next = start + STEP;
    }
}

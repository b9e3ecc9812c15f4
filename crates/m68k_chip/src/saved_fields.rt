//! The fields of a saved 68000, and whether their rules hold.
ghost use Rattle.std.specs.Prelude.{◌≡◌, map};
ghost use Rattle.md_fields.specs.Fields.{AreSized, seen};
ghost use Rattle.m68k_chip.specs.Saved as rules;
ghost use Rattle.m68k_chip.specs.Saved.{fields_by};

use crate::numbers::{ACCESS, WORD};
use crate::saved::Saved68;
use crate::sequencer::STEP;
use md_fields::{Field, are_zero_words, is_after, is_soon};
use md_word::Transfer;

/// The bits of the status register.
const STATUS: u16 = 0xa71f;

/// How many answers there can be, and how many words of a transfer.
const ANSWERS: u8 = 31;

const WORDS: u32 = 0x1_0000;

/// Where the addresses of the bus end.
const BUS_END: u32 = 0x100_0000;

impl<'a> Saved68<'a> {
    /// The fields in their order, and whether their rules hold; that of work RAM is given.
    #[tactic(auto, unfolding(md_fields::specs::Fields::AreSized))]
    pub fn fields(&self, at: u64, holds: bool) -> [Field<'_>; 33]
        ensures fields { map seen result ≡ fields_by at holds self.now }
        ensures sizes { AreSized (map seen result) }
    {
        let ram = self.ram;
        [
            Field::Quad(self.next, is_soon(self.next, at)),
            Field::Byte(self.stage, self.stage <= WORD),
            Field::Quad(self.start, self.is_start(at)),
            Field::Long(self.regs.d[0], true),
            Field::Long(self.regs.d[1], true),
            Field::Long(self.regs.d[2], true),
            Field::Long(self.regs.d[3], true),
            Field::Long(self.regs.d[4], true),
            Field::Long(self.regs.d[5], true),
            Field::Long(self.regs.d[6], true),
            Field::Long(self.regs.d[7], true),
            Field::Long(self.regs.a[0], true),
            Field::Long(self.regs.a[1], true),
            Field::Long(self.regs.a[2], true),
            Field::Long(self.regs.a[3], true),
            Field::Long(self.regs.a[4], true),
            Field::Long(self.regs.a[5], true),
            Field::Long(self.regs.a[6], true),
            Field::Long(self.regs.usp, true),
            Field::Long(self.regs.ssp, true),
            Field::Long(self.regs.pc, true),
            Field::Word(self.regs.sr, self.regs.sr & STATUS == self.regs.sr),
            Field::Byte(self.stopped, self.stopped <= 1),
            Field::Byte(self.halted, self.is_halted()),
            Field::Byte(self.trace, self.trace <= 1),
            Field::Quad(self.since, self.is_since(at)),
            Field::Byte(self.cause, self.is_cause()),
            Field::Byte(self.count, self.are_answers()),
            Field::Words(&self.answers, true),
            Field::Long(self.transfer.source, true),
            Field::Long(self.transfer.words, self.are_words()),
            Field::Word(self.transfer.cost, self.is_cost()),
            Field::Block(ram, holds),
        ]
    }

    fn is_start(&self, at: u64) -> bool
        ensures { result ≡ rules.is_start at self.now }
    {
        if self.stage == ACCESS {
            self.start < at
        } else {
            self.start == self.next
        }
    }

    fn is_halted(&self) -> bool
        ensures { result ≡ rules.is_halted self.now }
    {
        self.halted <= 1 && (self.halted == 0 || self.stage != ACCESS)
    }

    fn is_since(&self, at: u64) -> bool
        ensures { result ≡ rules.is_since at self.now }
    {
        if self.halted == 1 {
            self.since < at
        } else {
            self.since == 0
        }
    }

    fn is_cause(&self) -> bool
        ensures { result ≡ rules.is_cause self.now }
    {
        self.cause == 0
            || (self.stage == ACCESS && (self.cause == 4 || (self.cause == 6 || self.cause == 8)))
    }

    /// Whether the next event is where the count of answers puts it.
    fn follows(&self) -> bool
        ensures { result ≡ rules.follows self.now }
    {
        if self.stage == ACCESS {
            is_after(self.next, self.start, STEP * (u64::from(self.count) + 1))
        } else {
            self.count == 0
        }
    }

    fn are_answers(&self) -> bool
        ensures { result ≡ rules.are_answers self.now }
    {
        self.count <= ANSWERS
            && (self.follows() && are_zero_words(&self.answers[usize::from(self.count)..]))
    }

    fn are_words(&self) -> bool
        ensures { result ≡ rules.are_words self.now }
    {
        let Transfer { source, words, .. } = self.transfer;
        if words == 0 {
            source == 0 && self.stage != WORD
        } else {
            words <= WORDS && self.stage != 0 && is_source(source)
        }
    }

    fn is_cost(&self) -> bool
        ensures { result ≡ rules.is_cost self.now }
    {
        let Transfer { words, cost, .. } = self.transfer;
        if words == 0 {
            cost == 0
        } else {
            cost == 34 || cost == 380
        }
    }
}

fn is_source(source: u32) -> bool
    ensures { result ≡ rules.is_source source }
{
    source % 2 == 0 && source < BUS_END
}

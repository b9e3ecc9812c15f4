ghost use Rattle.std.specs.Prelude.{◌≡◌, ◌+◌, ◌≤◌, ◌++◌, ℕ, Bool, List, Option, Some, false, true, length, map, option_map};
ghost use Rattle.md_fields.specs.Fields.{AreSized, Field as Entry, seen};
ghost use Rattle.md_fields.specs.Places.{Stand};
ghost use Rattle.md_word.specs.declared.sub_bus.Parcel.{Parcel as Held};
ghost use Rattle.z80_chip.specs.Saved as rules;
ghost use Rattle.z80_chip.specs.States.{state_of};
ghost use Rattle.z80_parcel.specs.Parcels.{store_of};

use crate::numbers::{ACCESS, four_at, mode_number, mode_of, padded, stage_number, stage_of};
use crate::resuming::first_answers;
use crate::sequencer::{FIRST_STEP, STEP, Sequencer};
use md_fields::{Field, are_zeros, is_after, is_soon, u8_at, u16_at, u64_at};
use md_word::Parcel;
use rom_header::Cart;
use z80_exec::{Predicted80, Regs80};

/// The numbers that a saved state keeps of the Z80, whatever they are, in their order. Cycles are
/// master cycles.
#[derive(Clone, Copy)]
pub struct Saved80 {
    pub next: u64,
    /// 0 a sample, 1 an access, 2 a yield, 3 a take.
    pub stage: u8,
    pub start: u64,
    pub af: u16,
    pub bc: u16,
    pub de: u16,
    pub hl: u16,
    pub af2: u16,
    pub bc2: u16,
    pub de2: u16,
    pub hl2: u16,
    pub ix: u16,
    pub iy: u16,
    pub sp: u16,
    pub pc: u16,
    pub i: u8,
    pub r: u8,
    pub iff1: u8,
    pub iff2: u8,
    pub mode: u8,
    pub halted: u8,
    pub after_ei: u8,
    pub resets: u64,
    pub cause: u8,
    /// How many of the answers there are.
    pub count: u8,
    pub answers: [u8; 4],
}

impl Saved80 {
    /// What is kept of the Z80 between two of its events.
    pub fn of(sequencer: &Sequencer) -> Saved80
        ensures { (parcel : Option Held) → result ≡ rules.numbers_of (state_of sequencer.now parcel) }
    {
        let regs = sequencer.regs;
        Saved80 {
            next: sequencer.next,
            stage: stage_number(sequencer.stage),
            start: sequencer.start,
            af: regs.af,
            bc: regs.bc,
            de: regs.de,
            hl: regs.hl,
            af2: regs.af2,
            bc2: regs.bc2,
            de2: regs.de2,
            hl2: regs.hl2,
            ix: regs.ix,
            iy: regs.iy,
            sp: regs.sp,
            pc: regs.pc,
            i: regs.i,
            r: regs.r,
            iff1: u8::from(regs.iff1),
            iff2: u8::from(regs.iff2),
            mode: mode_number(regs.mode),
            halted: u8::from(sequencer.halted),
            after_ei: u8::from(sequencer.after_ei),
            resets: sequencer.resets,
            cause: sequencer.cause,
            count: sequencer.answers.len() as u8,
            answers: padded(sequencer.answers.as_slice()),
        }
    }

    /// The numbers in the bytes, big-endian.
    #[tactic(auto, unfolding(md_fields::specs::Places::Stand))]
    pub fn read(bytes: &[u8]) -> Saved80
        requires { 62 ≤ length bytes.now }
        ensures { (at : ℕ) (has : Bool) (rest : List Entry) → Stand 62 rest bytes.now → Stand 0 (rules.number_fields at has result ++ rest) bytes.now }
    {
        Saved80 {
            next: u64_at(bytes, 0),
            stage: u8_at(bytes, 8),
            start: u64_at(bytes, 9),
            af: u16_at(bytes, 17),
            bc: u16_at(bytes, 19),
            de: u16_at(bytes, 21),
            hl: u16_at(bytes, 23),
            af2: u16_at(bytes, 25),
            bc2: u16_at(bytes, 27),
            de2: u16_at(bytes, 29),
            hl2: u16_at(bytes, 31),
            ix: u16_at(bytes, 33),
            iy: u16_at(bytes, 35),
            sp: u16_at(bytes, 37),
            pc: u16_at(bytes, 39),
            i: u8_at(bytes, 41),
            r: u8_at(bytes, 42),
            iff1: u8_at(bytes, 43),
            iff2: u8_at(bytes, 44),
            mode: u8_at(bytes, 45),
            halted: u8_at(bytes, 46),
            after_ei: u8_at(bytes, 47),
            resets: u64_at(bytes, 48),
            cause: u8_at(bytes, 56),
            count: u8_at(bytes, 57),
            answers: four_at(bytes, 58),
        }
    }

    /// The fields in their order, and whether their rules hold, by whether RAM and bank register
    /// follow.
    #[tactic(auto, unfolding(md_fields::specs::Fields::AreSized))]
    pub fn fields(&self, at: u64, has: bool) -> [Field<'_>; 27]
        ensures fields { map seen result ≡ rules.number_fields at has self.now }
        ensures sizes { AreSized (map seen result) }
    {
        [
            Field::Quad(self.next, is_soon(self.next, at)),
            Field::Byte(self.stage, self.stage <= 3),
            Field::Quad(self.start, self.is_start(at)),
            Field::Word(self.af, true),
            Field::Word(self.bc, true),
            Field::Word(self.de, true),
            Field::Word(self.hl, true),
            Field::Word(self.af2, true),
            Field::Word(self.bc2, true),
            Field::Word(self.de2, true),
            Field::Word(self.hl2, true),
            Field::Word(self.ix, true),
            Field::Word(self.iy, true),
            Field::Word(self.sp, true),
            Field::Word(self.pc, true),
            Field::Byte(self.i, true),
            Field::Byte(self.r, true),
            Field::Byte(self.iff1, self.iff1 <= 1),
            Field::Byte(self.iff2, self.iff2 <= 1),
            Field::Byte(self.mode, self.mode <= 2),
            Field::Byte(self.halted, self.halted <= 1),
            Field::Byte(self.after_ei, self.after_ei <= 1),
            Field::Quad(self.resets, true),
            Field::Byte(self.cause, self.is_cause()),
            Field::Byte(self.count, self.are_answers()),
            Field::Block(&self.answers, true),
            Field::Block(&[], self.is_holder(has)),
        ]
    }

    fn is_start(&self, at: u64) -> bool
        ensures { result ≡ rules.is_start at self.now }
    {
        if self.stage == 0 {
            self.start == self.next
        } else if self.stage == ACCESS {
            self.start < at
        } else {
            is_after(self.next, self.start, FIRST_STEP)
        }
    }

    fn is_cause(&self) -> bool
        ensures { result ≡ rules.is_cause self.now }
    {
        self.cause <= 1 && (self.cause == 0 || self.stage == ACCESS)
    }

    fn are_answers(&self) -> bool
        ensures { result ≡ rules.are_answers self.now }
    {
        let follows = if self.stage == ACCESS {
            let distance = FIRST_STEP + STEP * u64::from(self.count);
            is_after(self.next, self.start, distance)
        } else {
            self.count == 0
        };
        self.count <= 3 && follows && are_zeros(&self.answers[usize::from(self.count)..])
    }

    fn is_holder(&self, has: bool) -> bool
        ensures { result ≡ rules.is_holder has self.now }
    {
        match self.stage {
            1 | 2 => has,
            3 => !has,
            _ => true,
        }
    }

    /// The Z80 of which these numbers are kept.
    pub fn sequencer(&self) -> Sequencer
        requires { self.now.count ≤ 4 }
        ensures state { (parcel : Option Held) → state_of result parcel ≡ rules.state_from self.now (option_map store_of parcel) }
        ensures unknown { result.predicted.known ≡ false }
    {
        Sequencer {
            regs: self.regs(),
            next: self.next,
            stage: stage_of(self.stage),
            start: self.start,
            halted: self.halted == 1,
            after_ei: self.after_ei == 1,
            resets: self.resets,
            cause: self.cause,
            answers: first_answers(&self.answers, usize::from(self.count)),
            request: None,
            predicted: Predicted80::nothing(),
        }
    }

    fn regs(&self) -> Regs80
        ensures { result ≡ rules.regs_from self.now }
    {
        Regs80 {
            af: self.af,
            bc: self.bc,
            de: self.de,
            hl: self.hl,
            af2: self.af2,
            bc2: self.bc2,
            de2: self.de2,
            hl2: self.hl2,
            ix: self.ix,
            iy: self.iy,
            sp: self.sp,
            pc: self.pc,
            i: self.i,
            r: self.r,
            iff1: self.iff1 == 1,
            iff2: self.iff2 == 1,
            mode: mode_of(self.mode),
        }
    }

    /// Whether what is carried out at an access waits for one more answer, and has answers to its
    /// accesses.
    pub fn asks_more(&self, cart: &Cart, parcel: &Option<Parcel>) -> bool
        requires { self.now.count ≤ 4 }
        ensures { result ≡ rules.asks_more cart.now (record { numbers = self.now; store = option_map store_of parcel.now }) }
    {
        match parcel {
            None => true,
            Some(parcel) => self.stage != ACCESS || self.sequencer().is_waiting(cart, parcel),
        }
    }
}

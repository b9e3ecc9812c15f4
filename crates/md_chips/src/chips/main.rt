ghost use Rattle.std.specs.Prelude.{◌≡◌, ◌≢◌, ◌+◌, ◌<◌, ◌≤◌, true, false, None, IfOk, IfSome, IsSome, IsTrue, MatchOption, length, vec_capacity};
ghost use Rattle.md_word.specs.Clock.{cycle_limit};
ghost use Rattle.md_word.specs.Keys.{key_lt};
ghost use Rattle.chip_core.specs.Staying.{LeavesAll, StaysTo, Wakes};
ghost use Rattle.m68k_chip.specs.Events.{WentAhead, request_of};
ghost use Rattle.m68k_chip.specs.Validity.{Fits};
ghost use Rattle.m68k_chip.specs.States.{next_of};
ghost use Rattle.bus_shared.specs.Board.{Board, IsBoard};
ghost use Rattle.md_chips.specs.Parts.{IsMain};
ghost use Rattle.md_chips.specs.Rules as rules;
ghost use Rattle.md_chips.specs.Rules.{IsChip, five};
ghost use Rattle.md_chips.specs.declared.chips.Chip.TheVariants as kinds;

use crate::pins::may_wake;
use bus_shared::{Shared, pins68};
use chip_core::Stay;
use m68k_chip::Chip68;
use md_word::{Answer68, Entry, Key, Next, NoMemory, Pins68};
use std::alloc::Global;
use std::marker::Model;

/// The 68000, with the answer that it keeps between the two halves of an access. It has memory of its own, so
/// that a chip is small where it is handed to a worker.
#[derive(Drop)]
pub struct MainChip {
    chip: Box<Chip68>,
    answer: Option<Answer68>,
}

impl Model for MainChip {
    ghost use Rattle.md_chips.specs.Parts.{MainValue};

    ghost Value = { MainValue };

    ghost view = { λ c. record { chip = c.chip.value; answer = c.answer } };
}

impl MainChip {
    /// A 68000 that keeps no answer.
    pub(crate) fn new(alloc: Global, chip: Chip68) -> Result<MainChip, NoMemory>
        ensures { IfOk result (λ main. main ≡ record { chip = chip; answer = None }) }
    {
        Ok(MainChip {
            chip: Box::new(alloc, chip)?,
            answer: None,
        })
    }

    pub(crate) fn chip(&self) -> &Chip68
        ensures { result.now ≡ self.now.chip }
    {
        &self.chip
    }

    pub(crate) fn next(&self) -> Next
        ensures value { result ≡ next_of self.now.chip.state }
        ensures main { IsMain self.now }
    {
        self.chip.next()
    }

    /// The part of an access that needs the board: the answer is kept.
    #[tactic(auto, unfolding(m68k_chip::specs::States::next_of, bus_shared::specs::Accesses::main_answer))]
    pub(crate) fn perform(&mut self, shared: &mut Shared) -> Entry
        requires access { (next_of self.old.chip.state).sample ≡ false }
        requires cycle { self.old.chip.state.next < cycle_limit }
        ensures chip { self.new ≡ (rules.main_perform self.old shared.old).chip }
        ensures shared { shared.new ≡ (rules.main_perform self.old shared.old).shared }
        ensures entry { result ≡ (rules.main_perform self.old shared.old).entry }
    {
        let chip = &*self.chip;
        let key = chip.next().key;
        let (answer, entry) = shared.carry_out_main(key, chip.request());
        self.answer = Some(answer);
        entry
    }

    /// Both halves of an access: no answer is kept.
    #[tactic(auto, unfolding(m68k_chip::specs::States::next_of))]
    pub(crate) fn access(&mut self, shared: &mut Shared) -> Entry
        requires access { (next_of self.old.chip.state).sample ≡ false }
        requires cycle { self.old.chip.state.next < cycle_limit }
        ensures chip { self.new ≡ rules.main_advance (rules.main_perform self.old shared.old).chip }
        ensures shared { shared.new ≡ (rules.main_perform self.old shared.old).shared }
        ensures entry { result ≡ (rules.main_perform self.old shared.old).entry }
    {
        shared.known();
        let chip = &mut *self.chip;
        let key = chip.next().key;
        let (answer, entry) = shared.carry_out_main(key, chip.request());
        self.answer = None;
        chip.answer(answer);
        entry
    }

    /// The access that is due and events after it, while the other chips make none: each comes before the key `end`.
    /// It stops behind an access that may have changed the pins of a chip that sleeps, one of another number than 0,
    /// and where the journal has no room.
    #[tactic(auto, unfolding(m68k_chip::specs::States::next_of))]
    pub(crate) fn access_ahead(
        &mut self,
        shared: &mut Shared,
        journal: &mut Vec<Entry>,
        end: &Key,
        sleeper: u8,
    ) -> Stay
        requires access { (next_of self.old.chip.state).sample ≡ false }
        requires below { key_lt (next_of self.old.chip.state).key end.now ≡ true }
        requires time { end.now.cycle ≤ cycle_limit }
        requires cycle { self.old.chip.state.next < cycle_limit }
        requires room { length journal.old.items < vec_capacity journal.old }
        ensures stays { StaysTo five result.events 0 end.now
            (record { chip = kinds.Main self.old; shared = shared.old; journal = journal.old.items })
            (record { chip = kinds.Main self.new; shared = shared.new; journal = journal.new.items }) }
        ensures pins { sleeper ≢ 0 → MatchOption result.woke
            (LeavesAll five IsChip IsBoard result.events 0 sleeper (record { chip = kinds.Main self.old; shared = shared.old; journal = journal.old.items }))
            (Wakes five IsChip IsBoard result.events 0 sleeper (record { chip = kinds.Main self.old; shared = shared.old; journal = journal.old.items })) }
        ensures later { self.old.chip.state.next + result.events ≤ self.new.chip.state.next }
        ensures room { vec_capacity journal.new ≡ vec_capacity journal.old }
    {
        let mut events = 0;
        let mut going = true;
        while going {
            shared.known();
            self.answer = None;
            let chip = &mut *self.chip;
            let key = chip.next().key;
            let (answer, entry) = shared.carry_out_main(key, chip.request());
            journal.push_reserved(entry);
            if sleeper != 0 && may_wake(&entry, sleeper) {
                chip.answer(answer);
                return Stay {
                    events: events + 1,
                    woke: Some(key),
                };
            }
            let samples = chip.answer_ahead(answer, pins68(shared), end.cycle);
            let _last = chip.next();
            events += 1 + samples;
            going = goes_on(chip, journal, end.cycle);
        }
        Stay { events, woke: None }
    }

    /// The private work after an access.
    pub(crate) fn advance(&mut self)
        requires access { (next_of self.old.chip.state).sample ≡ false }
        requires cycle { self.old.chip.state.next < cycle_limit }
        requires answer { IsSome self.old.answer }
        requires fits { IfSome self.old.answer (Fits (request_of self.old.chip.cart self.old.chip.state)) }
        ensures { self.new ≡ rules.main_advance self.old }
    {
        if let Some(answer) = self.answer.take() {
            self.chip.answer(answer);
        }
    }

    pub(crate) fn sample(&mut self, pins: Pins68)
        requires sample { (next_of self.old.chip.state).sample ≡ true }
        requires cycle { self.old.chip.state.next < cycle_limit }
        ensures { self.new ≡ rules.main_sample self.old pins.level }
    {
        self.chip.sample(pins);
    }

    /// A sample, and those of the same pins below cycle `end` after it; answers how many that were.
    pub(crate) fn sample_ahead(&mut self, pins: Pins68, end: u64) -> u64
        requires sample { (next_of self.old.chip.state).sample ≡ true }
        requires cycle { self.old.chip.state.next < cycle_limit }
        requires end { end ≤ cycle_limit }
        ensures state { WentAhead result end self.old.chip.cart pins.level self.old.chip.state self.new.chip.state }
        ensures cart { self.new.chip.cart ≡ self.old.chip.cart }
        ensures answer { self.new.answer ≡ self.old.answer }
    {
        self.chip.sample_ahead(pins, end)
    }
}

/// Whether the next event of the 68000 is an access below a cycle, and the journal has room for it.
#[inline(always)]
#[tactic(auto, unfolding(m68k_chip::specs::States::next_of))]
fn goes_on(chip: &Chip68, journal: &Vec<Entry>, end: u64) -> bool
    ensures kind { IsTrue result → (next_of chip.now.state).sample ≡ false }
    ensures below { IsTrue result → chip.now.state.next < end }
    ensures room { IsTrue result → length journal.now.items < vec_capacity journal.now }
{
    let next = chip.next();
    !next.sample && next.key.cycle < end && journal.len() < journal.capacity()
}

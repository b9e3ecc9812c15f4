ghost use Rattle.std.specs.Prelude.{◌≡◌, ◌<◌, ◌≤◌, false, true, IfSome, IsSome};
ghost use Rattle.md_word.specs.Clock.{cycle_limit};
ghost use Rattle.z80_chip.specs.Events.{Rests, WentAhead, asked_of};
ghost use Rattle.z80_chip.specs.States.{next_of};
ghost use Rattle.z80_parcel.specs.Requests.{Fits};
ghost use Rattle.md_chips.specs.Rules as rules;

use bus_shared::Shared;
use md_word::{Answer80, Entry, Next, Pins80};
use std::marker::Model;
use z80_chip::Chip80;

/// The Z80, with the answer that it keeps between the two halves of an access.
#[derive(Drop)]
pub struct SubChip {
    pub(crate) chip: Chip80,
    pub(crate) answer: Option<Answer80>,
}

impl Model for SubChip {
    ghost use Rattle.std.specs.Prelude.{option_map};
    ghost use Rattle.z80_parcel.specs.Requests.{answer_value80_of};
    ghost use Rattle.md_chips.specs.Parts.{SubValue};

    ghost Value = { SubValue };

    ghost view = { λ c. record { chip = c.chip; answer = option_map answer_value80_of c.answer } };
}

impl SubChip {
    ghost use Rattle.md_chips.specs.Parts.{IsSub};

    pub(crate) fn next(&self) -> Next
        ensures value { result ≡ next_of self.now.chip.state }
        ensures sub { IsSub self.now }
    {
        self.chip.next()
    }

    /// The part of an access that needs the board: the answer is kept.
    #[tactic(auto, unfolding(z80_chip::specs::States::next_of))]
    pub(crate) fn perform(&mut self, shared: &mut Shared) -> Entry
        requires access { (next_of self.old.chip.state).sample ≡ false }
        requires cycle { self.old.chip.state.next < cycle_limit }
        ensures chip { self.new ≡ (rules.sub_perform self.old shared.old).chip }
        ensures shared { shared.new ≡ (rules.sub_perform self.old shared.old).shared }
        ensures entry { result ≡ (rules.sub_perform self.old shared.old).entry }
    {
        let key = self.chip.next().key;
        let (answer, entry) = shared.carry_out_sub(key, self.chip.request());
        self.answer = Some(answer);
        entry
    }

    /// The private work after an access.
    pub(crate) fn advance(&mut self)
        requires access { (next_of self.old.chip.state).sample ≡ false }
        requires cycle { self.old.chip.state.next < cycle_limit }
        requires answer { IsSome self.old.answer }
        requires fits { IfSome self.old.answer (Fits (asked_of self.old.chip.cart self.old.chip.state)) }
        ensures { self.new ≡ rules.sub_advance self.old }
    {
        if let Some(answer) = self.answer.take() {
            self.chip.answer(answer);
        }
    }

    pub(crate) fn sample(&mut self, pins: &Pins80)
        requires sample { (next_of self.old.chip.state).sample ≡ true }
        requires cycle { self.old.chip.state.next < cycle_limit }
        ensures { self.new ≡ rules.sub_sample self.old pins.now }
    {
        self.chip.sample(*pins);
    }

    /// Whether it rests at these pins.
    pub(crate) fn rests(&self, pins: &Pins80) -> bool
        ensures { result ≡ true → Rests self.now.chip.cart self.now.chip.state pins.now }
    {
        self.chip.rests(pins)
    }

    /// A sample, and those of the same pins below cycle `end` after it; answers how many that were.
    pub(crate) fn sample_ahead(&mut self, pins: &Pins80, end: u64) -> u64
        requires sample { (next_of self.old.chip.state).sample ≡ true }
        requires cycle { self.old.chip.state.next < cycle_limit }
        requires end { end ≤ cycle_limit }
        ensures state { WentAhead result end self.old.chip.cart pins.now self.old.chip.state self.new.chip.state }
        ensures cart { self.new.chip.cart ≡ self.old.chip.cart }
        ensures answer { self.new.answer ≡ self.old.answer }
    {
        self.chip.sample_ahead(pins, end)
    }
}

//! A sample of the pins: what the Z80 finds there, and the event that follows.
ghost use Rattle.std.specs.Prelude.{◌≡◌, ◌+◌, ◌*◌, ◌^◌, ◌<◌, ◌≤◌, ℕ, List, [], IfSome, IsSome, true, Option, Some, None, is_some};
ghost use Rattle.md_word.specs.Clock as clock;
ghost use Rattle.md_word.specs.Clock.{cycle_limit};
ghost use Rattle.md_word.specs.declared.sub_bus.Parcel.{Parcel as Held};
ghost use Rattle.z80_chip.specs.Cases as cases;
ghost use Rattle.z80_chip.specs.Events as events;
ghost use Rattle.z80_chip.specs.Events.{WentAhead, begun, went_on};
ghost use Rattle.z80_chip.specs.Held.{IsPredicted, WaitsFor};
ghost use Rattle.z80_chip.specs.States.{State80, state_of};
ghost use Rattle.z80_chip.specs.declared.stage.Stage.TheVariants as stages;
ghost use Rattle.z80_parcel.specs.Parcels.{Store, store_of};

use crate::case::Case;
use crate::sequencer::{FIRST_STEP, STEP, Sequencer};
use crate::stage::Stage;
use md_word::{Parcel, Pins80};
use rom_header::Cart;
use z80_exec::{DecodeCache80, Progress80};

impl Sequencer {
    /// Looks at the reset, which sets the registers and ends a halt.
    #[tactic(auto, unfolding(crate::specs::Cases::seen))]
    fn see_reset(&mut self, pins: &Pins80)
        ensures state { (parcel : Option Held) → state_of self.new parcel ≡ cases.seen (state_of self.old parcel) pins.now }
        ensures start { self.new.start ≡ self.old.start }
        ensures answers { self.new.answers ≡ self.old.answers }
    {
        if pins.reset || pins.resets != self.resets {
            self.regs.reset();
            self.halted = false;
            self.resets = pins.resets;
        }
    }

    /// Whether the interrupt is taken at the next sample.
    #[tactic(auto, unfolding(crate::specs::Cases::is_interrupted))]
    fn is_interrupted(&self, pins: &Pins80) -> bool
        ensures { (parcel : Option Held) → result ≡ cases.is_interrupted (state_of self.now parcel) pins.now }
    {
        self.regs.iff1 && !self.after_ei && pins.int_from <= self.start && self.start < pins.int_to
    }

    /// What the Z80 does while it has its RAM, and the bus is not requested.
    #[tactic(auto, unfolding(crate::specs::Cases::running_case))]
    fn running_case(&self, pins: &Pins80) -> Case
        ensures { (parcel : Option Held) → result ≡ cases.running_case (state_of self.now parcel) pins.now }
    {
        if pins.reset {
            Case::InReset
        } else if self.is_interrupted(pins) {
            Case::Interrupt
        } else if self.halted {
            Case::Halted
        } else {
            Case::Instruction
        }
    }

    /// What the next sample finds, once it has looked at the reset.
    #[tactic(auto, unfolding(crate::specs::Cases::case_of))]
    pub(crate) fn case_at(&self, pins: &Pins80, parcel: &Option<Parcel>) -> Case
        ensures value { result ≡ cases.case_of (state_of self.now parcel.now) pins.now }
        ensures ram { cases.RunsWithRam result (is_some parcel.now) }
    {
        match (pins.request, parcel.is_some()) {
            (true, true) => Case::Yield,
            (false, false) => Case::Take,
            (true, false) => Case::Suspended,
            (false, true) => self.running_case(pins),
        }
    }

    /// Continues from a sample with these pins to the next event.
    #[inline(always)]
    #[tactic(auto, unfolding(crate::specs::Events::begun))]
    pub fn begin(
        &mut self,
        pins: &Pins80,
        cart: &Cart,
        parcel: &mut Option<Parcel>,
        cache: &mut DecodeCache80,
        progress: &mut Progress80,
    )
        requires start { self.old.start < cycle_limit }
        requires answers { self.old.answers.items ≡ [] }
        ensures state { state_of self.new parcel.new ≡ begun cart.now (state_of self.old parcel.old) pins.now }
        ensures waiting { WaitsFor self.new.stage cart.now (state_of self.new parcel.new) self.new.request }
        ensures predicted { IsPredicted self.new.stage cart.now (state_of self.new parcel.new) self.new.predicted }
    {
        self.see_reset(pins);
        match self.case_at(pins, parcel) {
            Case::Yield => self.go_to(Stage::Yield),
            Case::Take => self.go_to(Stage::Take),
            Case::Suspended | Case::InReset => self.wait(STEP),
            Case::Interrupt => self.carry_out(1, cart, parcel, cache, progress),
            Case::Halted => self.wait(FIRST_STEP),
            Case::Instruction => self.begin_instruction(cart, parcel, cache, progress),
        }
    }

    /// Rests on, to the first sample at cycle `end` or later; answers how many samples it passes over.
    fn rest_to(&mut self, end: u64) -> u64
        requires start { self.old.start < cycle_limit + 2 ^ 6 }
        requires end { end ≤ cycle_limit }
        ensures steps { result ≡ clock.gaps_to events.step self.old.start end }
        ensures few { result ≤ cycle_limit }
        ensures stage { self.new.stage ≡ stages.Sample }
        ensures state { (parcel : Option Held) → state_of self.new parcel
            ≡ events.waited (state_of self.old parcel) (events.step * clock.gaps_to events.step self.old.start end) }
    {
        let steps = end.saturating_sub(self.start).div_ceil(STEP);
        self.wait(STEP * steps);
        steps
    }

    /// Continues from a sample with these pins; where the Z80 rests, from the samples below cycle `end`
    /// after it too. Answers how many samples it took.
    pub fn begin_ahead(
        &mut self,
        pins: &Pins80,
        end: u64,
        cart: &Cart,
        parcel: &mut Option<Parcel>,
        cache: &mut DecodeCache80,
        progress: &mut Progress80,
    ) -> u64
        requires start { self.old.start < cycle_limit }
        requires end { end ≤ cycle_limit }
        requires answers { self.old.answers.items ≡ [] }
        ensures state { WentAhead result end cart.now pins.now (state_of self.old parcel.old) (state_of self.new parcel.new) }
        ensures waiting { WaitsFor self.new.stage cart.now (state_of self.new parcel.new) self.new.request }
        ensures predicted { IsPredicted self.new.stage cart.now (state_of self.new parcel.new) self.new.predicted }
        ensures few { result ≤ cycle_limit + 1 }
        ensures all { cases.is_rest (cases.case_of (state_of self.old parcel.old) pins.now) ≡ true → end ≤ self.new.next }
    {
        let rests = self.case_at(pins, parcel).is_rest();
        self.begin(pins, cart, parcel, cache, progress);
        if rests {
            return 1 + self.rest_to(end);
        }
        1
    }
}

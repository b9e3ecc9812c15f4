ghost use Rattle.std.specs.Prelude.{◌≡◌, ◌+◌, ◌<◌, ◌≤◌, ◌↔◌, true, false, IfOk, IsTrue};
ghost use Rattle.md_word.specs.Clock.{cycle_limit};

use crate::sequencer::Sequencer;
use crate::stage::Stage;
use md_word::{Answer80, Key, Next, NoMemory, Parcel, Pins80, Request80};
use rom_header::Cart;
use std::alloc::Global;
use std::marker::Model;
use std::sync::Arc;
use z80_exec::{DecodeCache80, Progress80};
use z80_parcel::first;

/// The Z80, with the cartridge, and with its RAM and bank register where it has them. It is
/// always at its next event; what it does without other chips belongs to the event before. Cycles are
/// master cycles, 15 a clock. Source: Zilog UM0080; the places of events and the bus request are this
/// project's profile.
#[derive(Drop)]
pub struct Chip80 {
    pub(crate) cart: Arc<Cart>,
    pub(crate) parcel: Option<Parcel>,
    pub(crate) sequencer: Sequencer,
    /// Instructions that were decoded before.
    pub(crate) cache: DecodeCache80,
    pub(crate) progress: Progress80,
}

impl Model for Chip80 {
    ghost use Rattle.std.specs.Arc.{arc_value};
    ghost use Rattle.z80_chip.specs.Held.{IsHeld};
    ghost use Rattle.z80_chip.specs.Validity.{Chip80Value};
    ghost use Rattle.z80_chip.specs.States.{state_of};

    ghost Value = { Chip80Value };

    ghost view = { λ chip. record { cart = arc_value chip.cart; state = state_of chip.sequencer chip.parcel } };

    ghost invariant = { λ chip. IsHeld (record { cart = arc_value chip.cart; state = state_of chip.sequencer chip.parcel }) chip.sequencer.request chip.sequencer.predicted };
}

impl Chip80 {
    ghost use Rattle.std.specs.Arc.{arc_value};
    ghost use Rattle.z80_chip.specs.Cases.{case_of, is_rest};
    ghost use Rattle.z80_chip.specs.Events.{Rests, WentAhead, answered, asked_of, begun, handed};
    ghost use Rattle.z80_chip.specs.Validity.{IsChip80};
    ghost use Rattle.z80_parcel.specs.Requests.{Fits, request_value80_of, answer_value80_of};
    ghost use Rattle.z80_chip.specs.States.{next_of, power_on};

    /// The Z80 at power-on: its next event is a sample at cycle 0, and all is 0. It has its RAM. It
    /// fails only where there is no memory for it.
    pub fn power_on(alloc: Global, cart: Arc<Cart>) -> Result<Chip80, NoMemory>
        ensures { IfOk result (λ chip. chip ≡ record { cart = arc_value cart; state = power_on }) }
    {
        cart.bytes();
        let parcel = first(alloc)?;
        let cache = DecodeCache80::empty(alloc)?;
        Ok(Chip80 {
            cart,
            parcel: Some(parcel),
            sequencer: Sequencer::power_on(),
            cache,
            progress: Progress80::new(),
        })
    }

    /// The next event. The Z80 is chip 1.
    #[tactic(auto, unfolding(crate::specs::States::next_of))]
    pub fn next(&self) -> Next
        ensures value { result ≡ next_of self.now.state }
        ensures valid { IsChip80 self.now }
    {
        Next {
            key: Key {
                cycle: self.sequencer.next,
                chip: 1,
            },
            sample: matches!(self.sequencer.stage, Stage::Sample),
        }
    }

    /// The request of the access that is the next event: a read or a write, to hand its RAM over, or to
    /// take it back. The Z80 no longer has what a yield hands over.
    pub fn request(&mut self) -> Request80
        requires { (next_of self.old.state).sample ≡ false }
        ensures request { request_value80_of result ≡ asked_of self.old.cart self.old.state }
        ensures chip { self.new ≡ record self.old { state = handed self.old.state } }
    {
        self.sequencer.asked(&mut self.parcel)
    }

    /// Takes the answer to the access that is the next event, and continues to the event after it. RAM
    /// and the bank register are written once all accesses of an instruction are answered, and not
    /// before. After a yield or a take the Z80 has what the answer gives back.
    pub fn answer(&mut self, answer: Answer80)
        requires asking { (next_of self.old.state).sample ≡ false }
        requires far { self.old.state.next < cycle_limit }
        requires fits { Fits (asked_of self.old.cart self.old.state) (answer_value80_of answer) }
        ensures { self.new ≡ record self.old { state = answered self.old.cart self.old.state (answer_value80_of answer) } }
    {
        self.sequencer.answer(
            answer,
            &self.cart,
            &mut self.parcel,
            &mut self.cache,
            &mut self.progress,
        );
    }

    /// Takes the sample that is the next event, and continues to the event after it. First it looks at
    /// the reset. Then it hands its RAM over where the bus is requested, or takes it back where that is
    /// over. It does nothing where it has no RAM, is in reset or is halted. Else it takes the interrupt
    /// or carries out the instruction at the program counter, up to the first shared access if any.
    pub fn sample(&mut self, pins: Pins80)
        requires sampling { (next_of self.old.state).sample ≡ true }
        requires far { self.old.state.next < cycle_limit }
        ensures { self.new ≡ record self.old { state = begun self.old.cart self.old.state pins } }
    {
        self.sequencer.begin(
            &pins,
            &self.cart,
            &mut self.parcel,
            &mut self.cache,
            &mut self.progress,
        );
    }

    /// Takes the sample that is the next event, as `sample` does, and then all samples of these pins
    /// below cycle `end`, up to the first access; answers how many that were.
    pub fn sample_ahead(&mut self, pins: &Pins80, end: u64) -> u64
        requires sampling { (next_of self.old.state).sample ≡ true }
        requires far { self.old.state.next < cycle_limit }
        requires end { end ≤ cycle_limit }
        ensures state { WentAhead result end self.old.cart pins.now self.old.state self.new.state }
        ensures all { is_rest (case_of self.old.state pins.now) ≡ true → end ≤ self.new.state.next }
        ensures cart { self.new.cart ≡ self.old.cart }
    {
        let mut samples = self.rest_ahead(pins, end);
        while self.samples_below(end) {
            self.sample(*pins);
            samples += 1;
        }
        samples
    }

    /// Whether the next event is a sample at which the Z80 does nothing, and so are all samples of these pins
    /// after it: the bus has its RAM, or its reset is held.
    pub fn rests(&self, pins: &Pins80) -> bool
        ensures { result ≡ true → Rests self.now.cart self.now.state pins.now }
    {
        self.next().sample && self.sequencer.case_at(pins, &self.parcel).is_rest()
    }

    /// Takes the sample that is the next event and, where the Z80 does nothing, all samples of these
    /// pins below cycle `end` too; answers how many that were.
    fn rest_ahead(&mut self, pins: &Pins80, end: u64) -> u64
        requires sampling { (next_of self.old.state).sample ≡ true }
        requires far { self.old.state.next < cycle_limit }
        requires end { end ≤ cycle_limit }
        ensures state { WentAhead result end self.old.cart pins.now self.old.state self.new.state }
        ensures few { result ≤ cycle_limit + 1 }
        ensures all { is_rest (case_of self.old.state pins.now) ≡ true → end ≤ self.new.state.next }
        ensures cart { self.new.cart ≡ self.old.cart }
    {
        self.sequencer.begin_ahead(
            pins,
            end,
            &self.cart,
            &mut self.parcel,
            &mut self.cache,
            &mut self.progress,
        )
    }

    /// Whether the next event is a sample below a cycle.
    #[tactic(auto, unfolding(crate::specs::States::next_of))]
    fn samples_below(&self, end: u64) -> bool
        ensures value { IsTrue result ↔ ((next_of self.now.state).sample ≡ true) × (self.now.state.next < end) }
        ensures valid { IsChip80 self.now }
    {
        matches!(self.sequencer.stage, Stage::Sample) && self.sequencer.next < end
    }
}

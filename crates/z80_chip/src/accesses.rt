//! The accesses of the Z80: what each asks for, and what its answer leads to.
ghost use Rattle.std.specs.Prelude.{◌≡◌, ◌+◌, ◌*◌, ◌<◌, ◌≤◌, ℕ, List, [], length, IfSome, IsSome, true, Option, Some, None, option_map, is_some};
ghost use Rattle.arrayvec.specs.ArrayVec.{array_vec_len};
ghost use Rattle.md_word.specs.Clock.{cycle_limit};
ghost use Rattle.md_word.specs.declared.sub_bus.Parcel.{Parcel as Held};
ghost use Rattle.z80_chip.specs.Events as events;
ghost use Rattle.z80_chip.specs.Events.{answered, handed};
ghost use Rattle.z80_chip.specs.Held.{IsPredicted, PredictsEnd, WaitsFor, access_in, asked_by};
ghost use Rattle.z80_chip.specs.States.{State80, state_of};
ghost use Rattle.z80_chip.specs.declared.stage.Stage.TheVariants as stages;
ghost use Rattle.z80_parcel.specs.Parcels.{Store, store_of};
ghost use Rattle.z80_parcel.specs.Requests as requests;
ghost use Rattle.z80_parcel.specs.Requests.{request_value80_of, answer_value80_of};

use crate::sequencer::Sequencer;
use crate::stage::Stage;
use md_word::{Answer80, Parcel, Request80};
use rom_header::Cart;
use z80_exec::{DecodeCache80, Progress80};

/// The master cycles from the sample that saw the request change to the sample after it.
const MOVE_STEP: u64 = 105;

impl Sequencer {
    /// The request of the access that is the next event. A yield hands over the RAM.
    #[tactic(auto, unfolding(crate::specs::Events::handed))]
    pub fn asked(&self, parcel: &mut Option<Parcel>) -> Request80
        ensures request { request_value80_of result ≡ asked_by self.now.stage self.now.request (option_map store_of parcel.old) }
        ensures state { state_of self.now parcel.new ≡ handed (state_of self.now parcel.old) }
    {
        match self.stage {
            Stage::Access => self.access(),
            Stage::Yield => yield_parcel(parcel),
            Stage::Sample | Stage::Take => Request80::Take,
        }
    }

    /// The read or write that waits for its answer at an access.
    fn access(&self) -> Request80
        ensures { request_value80_of result ≡ access_in self.now.request }
    {
        match self.request {
            Some(waiting) => waiting.request(),
            None => Request80::Take,
        }
    }

    /// Takes the answer to the access that is the next event.
    #[tactic(auto, unfolding(crate::specs::Events::answered))]
    pub fn answer(
        &mut self,
        answer: Answer80,
        cart: &Cart,
        parcel: &mut Option<Parcel>,
        cache: &mut DecodeCache80,
        progress: &mut Progress80,
    )
        requires start { self.old.start < cycle_limit }
        requires few { array_vec_len self.old.answers < 4 }
        requires ram { events.HasRam self.old.stage (state_of self.old parcel.old) }
        requires predicted { IsPredicted self.old.stage cart.now (state_of self.old parcel.old) self.old.predicted }
        ensures waiting { WaitsFor self.new.stage cart.now (state_of self.new parcel.new) self.new.request }
        ensures predicted { IsPredicted self.new.stage cart.now (state_of self.new parcel.new) self.new.predicted }
        ensures state { state_of self.new parcel.new ≡ answered cart.now (state_of self.old parcel.old) (answer_value80_of answer) }
    {
        match self.stage {
            Stage::Sample => {}
            Stage::Access => self.take_value(value_in(&answer), cart, parcel, cache, progress),
            Stage::Yield | Stage::Take => {
                *parcel = parcel_in(answer);
                self.wait(MOVE_STEP);
            }
        }
    }

    /// Takes the answer to a read or a write.
    fn take_value(
        &mut self,
        value: u8,
        cart: &Cart,
        parcel: &mut Option<Parcel>,
        cache: &mut DecodeCache80,
        progress: &mut Progress80,
    )
        requires start { self.old.start < cycle_limit }
        requires few { array_vec_len self.old.answers < 4 }
        requires ram { IsSome parcel.old }
        requires predicts_end { PredictsEnd self.old.predicted cart.now (state_of self.old parcel.old) self.old.cause }
        ensures state { state_of self.new parcel.new ≡ events.went_on_with cart.now (state_of self.old parcel.old) value }
        ensures waiting { WaitsFor self.new.stage cart.now (state_of self.new parcel.new) self.new.request }
        ensures predicted { IsPredicted self.new.stage cart.now (state_of self.new parcel.new) self.new.predicted }
    {
        if self.predicted.known {
            self.end_predicted();
            return;
        }
        self.answers.push(value);
        let cause = self.cause;
        self.carry_out(cause, cart, parcel, cache, progress);
    }
}

/// What a yield hands over: the parcel, which the Z80 no longer has.
fn yield_parcel(parcel: &mut Option<Parcel>) -> Request80
    ensures request { request_value80_of result ≡ events.handing (option_map store_of parcel.old) }
    ensures none { parcel.new ≡ None }
{
    match parcel.take() {
        Some(parcel) => Request80::Yield(parcel),
        None => Request80::Take,
    }
}

/// The value that an answer has; 0 where it has none.
fn value_in(answer: &Answer80) -> u8
    ensures { result ≡ requests.value_in (answer_value80_of answer.now) }
{
    match answer {
        Answer80::Value(value) => *value,
        Answer80::Done | Answer80::Back(_) => 0,
    }
}

/// The parcel that an answer gives back; None where it gives none.
fn parcel_in(answer: Answer80) -> Option<Parcel>
    ensures { option_map store_of result ≡ requests.store_in (answer_value80_of answer) }
{
    match answer {
        Answer80::Back(parcel) => Some(parcel),
        Answer80::Value(_) | Answer80::Done => None,
    }
}

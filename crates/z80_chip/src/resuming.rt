ghost use Rattle.std.specs.Prelude.{◌≡◌, ◌≤◌, length, take, Option, Some, Err, IsSome};
ghost use Rattle.arrayvec.specs.ArrayVec.{array_vec_len};
ghost use Rattle.md_word.specs.declared.sub_bus.Parcel.{Parcel as Held};
ghost use Rattle.z80_exec.specs.Access.Clauses.{request_of};
ghost use Rattle.z80_chip.specs.Events.{Asks, Waits, carried_out};
ghost use Rattle.z80_chip.specs.Held.{WaitsFor};
ghost use Rattle.z80_chip.specs.Saved as saved;
ghost use Rattle.z80_chip.specs.States.{state_of};
ghost use Rattle.z80_chip.specs.declared.stage.Stage.TheVariants.{Access};

use crate::need::Need;
use crate::sequencer::Sequencer;
use crate::stage::Stage;
use arrayvec::ArrayVec;
use md_word::Parcel;
use rom_header::Cart;
use z80_exec::{Progress80, Step80, Waiting, go};

/// The first of some answers.
pub fn first_answers(answers: &[u8], count: usize) -> ArrayVec<u8, 4>
    requires count { count ≤ length answers.now }
    requires few { count ≤ 4 }
    ensures { result.items ≡ take count answers.now }
{
    let mut first = ArrayVec::new();
    for index in 0..count {
        first.push(answers[index]);
    }
    first
}

/// Whether a value answers what is needed: a write is answered by 0.
fn is_answer(need: Need, value: u8) -> bool
    ensures { result ≡ saved.is_answer need value }
{
    match need {
        Need::Nothing | Need::Read => true,
        Need::Write => value == 0,
    }
}

impl Sequencer {
    /// What is carried out needs next, once it has its first answers.
    fn need_after(&self, count: usize, cart: &Cart, parcel: &Parcel) -> Need
        requires { count ≤ array_vec_len self.now.answers }
        ensures { result ≡ saved.need_after cart.now (state_of self.now (Some parcel.now)) count }
    {
        let mut regs = self.regs;
        let mut progress = Progress80::new();
        let answers = first_answers(self.answers.as_slice(), count);
        match go(&mut regs, cart, parcel, &answers, self.cause, &mut progress) {
            Step80::Need(Waiting::Read(_)) => Need::Read,
            Step80::Need(Waiting::Write(_, _)) => Need::Write,
            Step80::Done(_) => Need::Nothing,
        }
    }

    /// Whether each answer is one to the access that waited for it.
    #[tactic(auto, unfolding(crate::specs::Saved::are_answered))]
    fn are_answered(&self, cart: &Cart, parcel: &Parcel) -> bool
        ensures { result ≡ saved.are_answered cart.now (state_of self.now (Some parcel.now)) (array_vec_len self.now.answers) }
    {
        let mut all = true;
        for count in 0..self.answers.len() {
            all = all && is_answer(self.need_after(count, cart, parcel), self.answers[count]);
        }
        all
    }

    /// Whether what is carried out with its answers waits for one more, and these are answers to its
    /// accesses.
    #[tactic(auto, unfolding(crate::specs::Saved::is_waiting))]
    pub fn is_waiting(&self, cart: &Cart, parcel: &Parcel) -> bool
        ensures { result ≡ saved.is_waiting cart.now (state_of self.now (Some parcel.now)) }
    {
        match self.need_after(self.answers.len(), cart, parcel) {
            Need::Nothing => false,
            Need::Read | Need::Write => self.are_answered(cart, parcel),
        }
    }

    /// The read or write that waits for its answer.
    fn waiting(&self, cart: &Cart, parcel: &Parcel) -> Waiting
        requires { Asks cart.now (state_of self.now (Some parcel.now)) }
        ensures { carried_out cart.now (state_of self.now (Some parcel.now)) self.now.cause ≡ Err (request_of result) }
    {
        let mut regs = self.regs;
        let mut progress = Progress80::new();
        match go(
            &mut regs,
            cart,
            parcel,
            &self.answers,
            self.cause,
            &mut progress,
        ) {
            Step80::Need(waiting) => waiting,
            Step80::Done(_) => unreachable!(),
        }
    }

    /// Keeps the request that waits for its answer at an access, where the Z80 has its RAM.
    fn keep_request(&mut self, cart: &Cart, parcel: &Option<Parcel>)
        requires ram { IsSome parcel.now }
        requires asks { Asks cart.now (state_of self.old parcel.now) }
        ensures state { (held : Option Held) → state_of self.new held ≡ state_of self.old held }
        ensures stage { self.new.stage ≡ self.old.stage }
        ensures predicted { self.new.predicted ≡ self.old.predicted }
        ensures waiting { WaitsFor Access cart.now (state_of self.new parcel.now) self.new.request }
    {
        if let Some(parcel) = parcel {
            self.request = Some(self.waiting(cart, parcel));
        }
    }

    /// Takes up again what is carried out at an access: the request that waits for its answer is found again.
    pub fn resume(&mut self, cart: &Cart, parcel: &Option<Parcel>)
        requires { Waits self.old.stage cart.now (state_of self.old parcel.now) }
        ensures state { (held : Option Held) → state_of self.new held ≡ state_of self.old held }
        ensures predicted { self.new.predicted ≡ self.old.predicted }
        ensures waiting { WaitsFor self.new.stage cart.now (state_of self.new parcel.now) self.new.request }
    {
        match self.stage {
            Stage::Access => self.keep_request(cart, parcel),
            Stage::Sample | Stage::Yield | Stage::Take => {}
        }
    }
}

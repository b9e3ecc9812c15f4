ghost use Rattle.std.specs.Prelude.{◌≡◌, ◌≤◌, ℕ, List, length, take, IsSomeAnd, IsTrue};
ghost use Rattle.arrayvec.specs.ArrayVec.{array_vec_len};
ghost use Rattle.m68k_chip.specs.Held.{WaitsFor};
ghost use Rattle.m68k_chip.specs.Resuming as rules;
ghost use Rattle.m68k_chip.specs.Validity.{Asks};
ghost use Rattle.m68k_chip.specs.States.{state_of};

use crate::sequencer::Sequencer;
use crate::stage::Stage;
use arrayvec::ArrayVec;
use m68k_access::memory::RAM_SIZE;
use m68k_exec::{Progress, Step, go};
use md_word::Request68;
use rom_header::Cart;

/// The first of some answers.
pub fn first_answers(answers: &[u16], count: usize) -> ArrayVec<u16, 32>
    requires count { count ≤ length answers.now }
    requires few { count ≤ 32 }
    ensures { result.items ≡ take count answers.now }
{
    let mut first = ArrayVec::new();
    for index in 0..count {
        first.push(answers[index]);
    }
    first
}

/// Whether a value answers a request.
fn fits_value(request: Request68, value: u16) -> bool
    ensures { result ≡ rules.is_answer_to request value }
{
    match request {
        Request68::Read8(_) => value < 0x100,
        Request68::Read16(_) => true,
        Request68::Write8(_, _)
        | Request68::Write16(_, _)
        | Request68::Ack(_)
        | Request68::Word(_) => value == 0,
    }
}

fn is_answer(request: Option<Request68>, value: u16) -> bool
    ensures { result ≡ rules.is_answer request value }
{
    match request {
        Some(request) => fits_value(request, value),
        None => false,
    }
}

impl Sequencer {
    /// The request that what is carried out waits for, once it has its first answers.
    fn asked_after(&self, count: usize, cart: &Cart, ram: &[u8; RAM_SIZE]) -> Option<Request68>
        requires { count ≤ array_vec_len self.now.answers }
        ensures { result ≡ rules.asked_after cart.now (state_of self.now ram.now) count }
    {
        let mut regs = self.regs;
        let mut progress = Progress::new();
        let answers = first_answers(self.answers.as_slice(), count);
        let mut step = Step::Need(Request68::Ack(0));
        go(
            &mut regs,
            cart,
            ram,
            &answers,
            self.cause,
            &mut progress,
            &mut step,
        );
        match step {
            Step::Need(request) => Some(request),
            Step::Done(_) => None,
        }
    }

    /// Whether each answer is one to the access that waited for it.
    #[tactic(auto, unfolding(crate::specs::Resuming::are_answered))]
    fn are_answered(&self, cart: &Cart, ram: &[u8; RAM_SIZE]) -> bool
        ensures { result ≡ rules.are_answered cart.now (state_of self.now ram.now) (array_vec_len self.now.answers) }
    {
        let mut all = true;
        for count in 0..self.answers.len() {
            all = all && is_answer(self.asked_after(count, cart, ram), self.answers[count]);
        }
        all
    }

    /// Finds the request that waits for its answer at an access, and keeps it. Tells whether there is
    /// one, and each answer is one to the access that waited for it.
    fn finds_request(&mut self, cart: &Cart, ram: &[u8; RAM_SIZE]) -> bool
        ensures value { result ≡ rules.is_waiting cart.now (state_of self.old ram.now) }
        ensures state { (held : List ℕ) → state_of self.new held ≡ state_of self.old held }
        ensures predicted { self.new.predicted ≡ self.old.predicted }
        ensures waiting { IsTrue result → IsSomeAnd self.new.request (λ asked. Asks cart.now (state_of self.new ram.now) self.new.cause self.new.answers.items asked) }
    {
        match self.asked_after(self.answers.len(), cart, ram) {
            Some(request) => {
                self.request = Some(request);
                self.are_answered(cart, ram)
            }
            None => false,
        }
    }

    /// Takes up again what is carried out at an access: the request that waits for its answer is found
    /// again. Answers whether there is one, and each answer is one to the access that waited for it.
    pub fn resumes(&mut self, cart: &Cart, ram: &[u8; RAM_SIZE]) -> bool
        ensures value { result ≡ rules.asks_more cart.now (state_of self.old ram.now) }
        ensures state { (held : List ℕ) → state_of self.new held ≡ state_of self.old held }
        ensures predicted { self.new.predicted ≡ self.old.predicted }
        ensures waiting { IsTrue result → WaitsFor self.new.stage cart.now (state_of self.new ram.now) self.new.request }
    {
        match self.stage {
            Stage::Sample | Stage::Word => true,
            Stage::Access => self.finds_request(cart, ram),
        }
    }
}

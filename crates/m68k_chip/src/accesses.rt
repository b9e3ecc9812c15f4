//! The accesses of the 68000: what each asks for, and what its answer leads to.
ghost use Rattle.std.specs.Prelude.{◌≡◌, ◌^◌, ◌<◌, ℕ, List, [], true, false, IsTrue};
ghost use Rattle.md_word.specs.Clock.{cycle_limit};
ghost use Rattle.arrayvec.specs.ArrayVec.{array_vec_len};
ghost use Rattle.m68k_access.specs.Memory.{word_at};
ghost use Rattle.m68k_exec.specs.Sample.Caches.{IsCacheOf};
ghost use Rattle.m68k_exec.specs.Sample.Prediction.{TakesClocks};
ghost use Rattle.m68k_chip.specs.Events as events;
ghost use Rattle.m68k_chip.specs.Events.{answered, answered_at, request_at};
ghost use Rattle.m68k_chip.specs.Held.{IsPredicted, WaitsFor};
ghost use Rattle.m68k_chip.specs.States.{next_of, none_left, state_of};
ghost use Rattle.m68k_chip.specs.declared.stage.Stage.TheVariants.{Access};

use crate::sequencer::{NONE_LEFT, STEP, Sequencer};
use crate::stage::Stage;
use m68k_access::memory::RAM_SIZE;
use m68k_exec::{DecodeCache, Progress, word_at};
use md_word::{Answer68, Request68, Transfer};
use rom_header::Cart;

impl Sequencer {
    /// A word of a transfer was moved, and the next costs so many cycles.
    fn move_word(&mut self, cost: u16)
        requires next { self.old.next < cycle_limit }
        requires source { self.old.transfer.source < 2 ^ 24 }
        ensures { (ram : List ℕ) → state_of self.new ram ≡ events.word_moved (state_of self.old ram) cost }
    {
        let Transfer { source, words, .. } = self.transfer;
        let next = self.next;
        if words <= 1 {
            self.transfer = NONE_LEFT;
            self.rest_at_sample(next + STEP);
        } else {
            self.transfer = Transfer {
                source: source / 0x2_0000 * 0x2_0000 + (source + 2) % 0x2_0000,
                words: words - 1,
                cost,
            };
            self.rest_at_word(next + u64::from(cost));
        }
    }

    /// A transfer that an answer starts takes the place of an earlier one.
    fn start_transfer(&mut self, transfer: Option<Transfer>)
        ensures state { (ram : List ℕ) → state_of self.new ram ≡ events.with_started (state_of self.old ram) transfer }
        ensures answers { self.new.answers.items ≡ self.old.answers.items }
        ensures predicted { self.new.predicted ≡ self.old.predicted }
    {
        if let Some(transfer) = transfer {
            self.transfer = transfer;
        }
    }

    /// Whether it is at an access after which is known what comes.
    #[inline(always)]
    pub fn is_predicted(&self) -> bool
        ensures stage { IsTrue result → self.now.stage ≡ Access }
        ensures known { IsTrue result → self.now.predicted.known ≡ true }
    {
        matches!(self.stage, Stage::Access) && self.predicted.known
    }

    /// Takes the answer to a shared access after which is known what comes.
    #[inline(always)]
    pub fn take_predicted(&mut self, answer: &Answer68)
        requires start { self.old.start < cycle_limit }
        requires known { self.old.predicted.known ≡ true }
        requires clocks { TakesClocks self.old.predicted }
        ensures state { (cart ram : List ℕ) → IsPredicted Access cart (state_of self.old ram) self.old.predicted → state_of self.new ram ≡ answered_at Access cart (state_of self.old ram) answer.now }
        ensures waiting { (cart ram : List ℕ) → IsPredicted Access cart (state_of self.old ram) self.old.predicted → WaitsFor self.new.stage cart (state_of self.new ram) self.new.request }
        ensures predicted { (cart ram : List ℕ) → IsPredicted Access cart (state_of self.old ram) self.old.predicted → IsPredicted self.new.stage cart (state_of self.new ram) self.new.predicted }
    {
        self.start_transfer(answer.transfer);
        self.end_predicted();
    }

    /// Takes the answer to a shared access of what is carried out.
    pub fn take(
        &mut self,
        answer: &Answer68,
        cart: &Cart,
        ram: &mut [u8; RAM_SIZE],
        cache: &mut DecodeCache,
        progress: &mut Progress,
    )
        requires start { self.old.start < cycle_limit }
        requires few { array_vec_len self.old.answers < 32 }
        requires predicted { IsPredicted Access cart.now (state_of self.old ram.old) self.old.predicted }
        requires cache { IsCacheOf cart.now cache.old }
        ensures cache { IsCacheOf cart.now cache.new }
        ensures state { state_of self.new ram.new ≡ answered_at Access cart.now (state_of self.old ram.old) answer.now }
        ensures quiet { progress.new.writes.items ≡ [] → ram.new ≡ ram.old }
        ensures waiting { WaitsFor self.new.stage cart.now (state_of self.new ram.new) self.new.request }
        ensures predicted { IsPredicted self.new.stage cart.now (state_of self.new ram.new) self.new.predicted }
    {
        if self.predicted.known {
            self.take_predicted(answer);
        } else {
            self.start_transfer(answer.transfer);
            self.answers.push(answer.value);
            let cause = self.cause;
            self.go_on(cause, cart, ram, cache, progress);
        }
    }

    /// The request that waits for its answer at the next event, which is an access.
    #[tactic(auto, unfolding(crate::specs::States::next_of))]
    pub fn asked(&self, cart: &Cart, ram: &[u8; RAM_SIZE]) -> Request68
        requires access { (next_of (state_of self.now ram.now)).sample ≡ false }
        requires waiting { WaitsFor self.now.stage cart.now (state_of self.now ram.now) self.now.request }
        requires source { self.now.transfer.source < 2 ^ 24 }
        ensures { result ≡ request_at self.now.stage cart.now (state_of self.now ram.now) }
    {
        match self.stage {
            Stage::Sample => unreachable!(),
            Stage::Access => match self.request {
                Some(request) => request,
                None => unreachable!(),
            },
            Stage::Word => Request68::Word(word_at(self.transfer.source, cart.bytes(), ram)),
        }
    }

    /// Takes the answer to the access that is the next event.
    #[tactic(auto, unfolding(crate::specs::Events::answered))]
    pub fn answer(
        &mut self,
        answer: &Answer68,
        cart: &Cart,
        ram: &mut [u8; RAM_SIZE],
        cache: &mut DecodeCache,
        progress: &mut Progress,
    )
        requires start { self.old.start < cycle_limit }
        requires next { self.old.next < cycle_limit }
        requires source { self.old.transfer.source < 2 ^ 24 }
        requires few { array_vec_len self.old.answers < 32 }
        requires predicted { IsPredicted self.old.stage cart.now (state_of self.old ram.old) self.old.predicted }
        requires cache { IsCacheOf cart.now cache.old }
        ensures cache { IsCacheOf cart.now cache.new }
        ensures state { state_of self.new ram.new ≡ answered cart.now (state_of self.old ram.old) answer.now }
        ensures quiet { progress.new.writes.items ≡ [] → ram.new ≡ ram.old }
        ensures waiting { WaitsFor self.new.stage cart.now (state_of self.new ram.new) self.new.request }
        ensures predicted { IsPredicted self.new.stage cart.now (state_of self.new ram.new) self.new.predicted }
    {
        match self.stage {
            Stage::Sample => {}
            Stage::Access => self.take(answer, cart, ram, cache, progress),
            Stage::Word => self.move_word(answer.cost),
        }
    }
}

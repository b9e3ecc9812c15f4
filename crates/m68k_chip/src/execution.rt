//! What the 68000 carries out: an instruction, a trace or an interrupt, up to its end or to an access.
ghost use Rattle.std.specs.Prelude.{◌≡◌, ◌+◌, ◌*◌, ◌<◌, ℕ, List, [], Some, length};
ghost use Rattle.md_word.specs.Clock.{cycle_limit, main_clock};
ghost use Rattle.m68k_time.specs.Clocks.{clocks_of};
ghost use Rattle.m68k_access.specs.Memory.{ram_after};
ghost use Rattle.m68k_exec.specs.Sample.Caches.{IsCacheOf};
ghost use Rattle.m68k_exec.specs.Sample.Prediction.{TakesClocks};
ghost use Rattle.m68k_chip.specs.Events as events;
ghost use Rattle.m68k_chip.specs.Events.{carried_out, end_of, went_on};
ghost use Rattle.m68k_chip.specs.Held.{IsPredicted, WaitsFor};
ghost use Rattle.m68k_chip.specs.Steps.{IsPredictedEnd, IsReported, ended_by, running};
ghost use Rattle.m68k_chip.specs.States.{state_of};

use crate::sequencer::{STEP, Sequencer};
use crate::stage::Stage;
use m68k_access::memory::RAM_SIZE;
use m68k_exec::{DecodeCache, Finish, PrivateStep, Progress, Step, predict_cached, run_private};
use m68k_time::clocks;
use md_word::Request68;
use md_word::clock::MAIN_CLOCK;
use rom_header::Cart;

/// Writes bytes into work RAM, the first of them first.
fn store_all(writes: &[(u32, u8)], ram: &mut [u8; RAM_SIZE])
    ensures { ram.new ≡ ram_after ram.old writes.now }
{
    'writes: for (address, byte) in writes {
        ram[*address as usize % RAM_SIZE] = *byte;
    }
}

impl Sequencer {
    /// Goes to the access that waits for the next answer.
    fn ask(&mut self, cause: u8, request: Request68)
        requires start { self.old.start < cycle_limit }
        requires answers { length self.old.answers.items < 32 }
        ensures state { (ram : List ℕ) → state_of self.new ram ≡ events.asking (state_of self.old ram) cause self.old.answers.items }
        ensures request { self.new.request ≡ Some request }
        ensures predicted { self.new.predicted ≡ self.old.predicted }
    {
        self.next = self.start + STEP * (self.answers.len() as u64 + 1);
        self.stage = Stage::Access;
        self.cause = cause;
        self.request = Some(request);
    }

    /// Ends what was carried out, from the registers that it left; what it wrote into work RAM is
    /// stored elsewhere.
    #[inline(always)]
    fn finish(&mut self, finish: &Finish)
        requires { self.old.start < cycle_limit }
        ensures { (ram : List ℕ) (writes : List (ℕ × ℕ)) → state_of self.new (ram_after ram writes)
            ≡ events.finished (state_of self.old ram) (ended_by finish.now self.old.regs writes) }
    {
        let clocks = clocks(&finish.op, finish.spent);
        self.finish_in(finish, clocks);
    }

    /// `finish`, in so many clocks.
    #[inline(always)]
    fn finish_in(&mut self, finish: &Finish, clocks: u32)
        requires start { self.old.start < cycle_limit }
        requires clocks { clocks ≡ clocks_of finish.now.op finish.now.spent }
        ensures { (ram : List ℕ) (writes : List (ℕ × ℕ)) → state_of self.new (ram_after ram writes)
            ≡ events.finished (state_of self.old ram) (ended_by finish.now self.old.regs writes) }
    {
        let end = self.start + MAIN_CLOCK * u64::from(clocks);
        self.stopped = finish.stopped;
        self.trace = finish.trace;
        self.halted = if finish.halted {
            Some(self.start)
        } else {
            None
        };
        self.cause = 0;
        self.answers.clear();
        self.rest(end);
    }

    /// Ends an instruction that made no shared access and ended in no exception, by its clocks, from the registers
    /// that it left.
    #[inline(always)]
    fn finish_private(&mut self, clocks: u32)
        requires { self.old.start < cycle_limit }
        ensures { (ram : List ℕ) → state_of self.new ram ≡ events.rested (running (state_of self.old ram)) (self.old.start + main_clock * clocks) }
    {
        let end = self.start + MAIN_CLOCK * u64::from(clocks);
        self.stopped = false;
        self.trace = false;
        self.halted = None;
        self.cause = 0;
        self.answers.clear();
        self.rest(end);
    }

    /// Continues with what is carried out, as far as the answers go.
    #[inline(never)]
    #[tactic(auto, unfolding(crate::specs::Events::went_on))]
    pub fn go_on(
        &mut self,
        cause: u8,
        cart: &Cart,
        ram: &mut [u8; RAM_SIZE],
        cache: &mut DecodeCache,
        progress: &mut Progress,
    )
        requires start { self.old.start < cycle_limit }
        requires cache { IsCacheOf cart.now cache.old }
        ensures cache { IsCacheOf cart.now cache.new }
        ensures state { state_of self.new ram.new ≡ went_on cart.now (state_of self.old ram.old) cause self.old.answers.items }
        ensures quiet { progress.new.writes.items ≡ [] → ram.new ≡ ram.old }
        ensures reported { IsReported (carried_out cart.now (state_of self.old ram.old) cause self.old.answers.items) self.new.request }
        ensures predicted_end { IsPredictedEnd (carried_out cart.now (state_of self.old ram.old) cause self.old.answers.items) self.new.predicted cart.now (state_of self.old ram.old) cause self.old.answers.items }
    {
        let mut step = Step::Need(Request68::Ack(0));
        predict_cached(
            &mut self.regs,
            cart,
            ram,
            &self.answers,
            cause,
            cache,
            progress,
            &mut step,
            &mut self.predicted,
        );
        match &step {
            Step::Need(request) => self.ask(cause, *request),
            Step::Done(finish) => {
                store_all(progress.writes.as_slice(), ram);
                self.finish(finish);
            }
        }
    }

    /// Ends what was carried out as it is predicted.
    pub fn end_predicted(&mut self)
        requires start { self.old.start < cycle_limit }
        requires clocks { TakesClocks self.old.predicted }
        ensures { (ram : List ℕ) → state_of self.new ram
            ≡ events.finished (state_of self.old ram) (ended_by self.old.predicted.finish self.old.predicted.regs []) }
    {
        self.regs = self.predicted.regs;
        let finish = self.predicted.finish;
        let clocks = self.predicted.clocks;
        self.finish_in(&finish, clocks);
    }

    /// Begins the instruction at the program counter, up to its end or to its first shared access. One that makes
    /// none may end at once, and a MOVE may come at once to the shared write that it waits for.
    #[inline(always)]
    pub fn begin_instruction(
        &mut self,
        cart: &Cart,
        ram: &mut [u8; RAM_SIZE],
        cache: &mut DecodeCache,
        progress: &mut Progress,
    )
        requires start { self.old.start < cycle_limit }
        requires answers { self.old.answers.items ≡ [] }
        requires cache { IsCacheOf cart.now cache.old }
        ensures cache { IsCacheOf cart.now cache.new }
        ensures state { state_of self.new ram.new ≡ went_on cart.now (state_of self.old ram.old) 0 [] }
        ensures quiet { progress.new.writes.items ≡ [] → ram.new ≡ ram.old }
        ensures waiting { WaitsFor self.new.stage cart.now (state_of self.new ram.new) self.new.request }
        ensures predicted { IsPredicted self.new.stage cart.now (state_of self.new ram.new) self.new.predicted }
    {
        match run_private(
            &mut self.regs,
            cart,
            ram,
            cache,
            progress,
            &mut self.predicted,
        ) {
            Some(step) => match step {
                PrivateStep::Done(clocks) => {
                    store_all(progress.writes.as_slice(), ram);
                    self.finish_private(clocks);
                }
                PrivateStep::Need(request) => self.ask(0, request),
            },
            None => self.go_on(0, cart, ram, cache, progress),
        }
    }
}

//! What the Z80 carries out: an instruction or an interrupt, up to its end or to an access.
ghost use Rattle.std.specs.Prelude.{◌≡◌, ◌+◌, ◌*◌, ◌<◌, ◌≤◌, ℕ, List, [], length, IfSome, IsSome, true, Option, Some, None, option_map, is_some};
ghost use Rattle.md_word.specs.Clock.{cycle_limit};
ghost use Rattle.md_word.specs.declared.sub_bus.Parcel.{Parcel as Held};
ghost use Rattle.z80_chip.specs.Events as events;
ghost use Rattle.z80_chip.specs.Events.{went_on};
ghost use Rattle.z80_chip.specs.Held.{IsPredicted, WaitsFor};
ghost use Rattle.z80_chip.specs.States.{State80, state_of};
ghost use Rattle.z80_chip.specs.declared.stage.Stage.TheVariants as stages;
ghost use Rattle.z80_parcel.specs.Parcels.{Store, store_of};

use crate::sequencer::{FIRST_STEP, STEP, Sequencer};
use crate::stage::Stage;
use md_word::Parcel;
use md_word::clock::SUB_CLOCK;
use rom_header::Cart;
use z80_exec::{DecodeCache80, Finish80, Progress80, Step80, Waiting, predict, run_private};
use z80_parcel::store_bytes;

impl Sequencer {
    /// Goes to the access that waits for the next answer.
    fn ask(&mut self, cause: u8, waiting: Waiting)
        requires { self.old.start < cycle_limit }
        ensures state { (parcel : Option Held) → state_of self.new parcel ≡ events.asking (state_of self.old parcel) cause }
        ensures request { self.new.request ≡ Some waiting }
        ensures predicted { self.new.predicted ≡ self.old.predicted }
    {
        self.next = self.start + FIRST_STEP + STEP * self.answers.len() as u64;
        self.stage = Stage::Access;
        self.cause = cause;
        self.request = Some(waiting);
    }

    /// Ends what was carried out, from the registers that it left; what it wrote into RAM and the
    /// bank register is stored elsewhere.
    fn finish(&mut self, finish: &Finish80)
        requires start { self.old.start < cycle_limit }
        requires t { finish.now.t ≤ 23 }
        ensures state { (parcel : Option Held) → state_of self.new parcel ≡ events.ended_at (state_of self.old parcel) finish.now }
        ensures stage { self.new.stage ≡ stages.Sample }
    {
        self.halted = finish.halted;
        self.after_ei = finish.after_ei;
        self.cause = 0;
        self.answers.clear();
        self.wait(SUB_CLOCK * u64::from(finish.t));
    }

    /// Ends what was carried out as it was predicted.
    pub fn end_predicted(&mut self)
        requires start { self.old.start < cycle_limit }
        requires t { self.old.predicted.finish.t ≤ 23 }
        ensures state { (parcel : Option Held) → state_of self.new parcel
            ≡ events.ended_at (record (state_of self.old parcel) { regs = self.old.predicted.regs }) self.old.predicted.finish }
        ensures stage { self.new.stage ≡ stages.Sample }
    {
        self.regs = self.predicted.regs;
        let finish = self.predicted.finish;
        self.finish(&finish);
    }

    /// Continues what is carried out, as far as the answers go.
    #[inline(never)]
    #[tactic(auto, unfolding(crate::specs::Events::went_on))]
    fn go_on(
        &mut self,
        cause: u8,
        cart: &Cart,
        parcel: &mut Parcel,
        cache: &mut DecodeCache80,
        progress: &mut Progress80,
    )
        requires { self.old.start < cycle_limit }
        ensures state { state_of self.new (Some parcel.new) ≡ went_on cart.now (state_of self.old (Some parcel.old)) cause }
        ensures waiting { WaitsFor self.new.stage cart.now (state_of self.new (Some parcel.new)) self.new.request }
        ensures predicted { IsPredicted self.new.stage cart.now (state_of self.new (Some parcel.new)) self.new.predicted }
    {
        match predict(
            &mut self.regs,
            cart,
            parcel,
            &self.answers,
            cause,
            cache,
            progress,
            &mut self.predicted,
        ) {
            Step80::Need(waiting) => self.ask(cause, waiting),
            Step80::Done(finish) => {
                store_bytes(progress.writes.as_slice(), parcel);
                self.finish(&finish);
            }
        }
    }

    /// Carries out an instruction or an interrupt, where the Z80 has its RAM.
    pub fn carry_out(
        &mut self,
        cause: u8,
        cart: &Cart,
        parcel: &mut Option<Parcel>,
        cache: &mut DecodeCache80,
        progress: &mut Progress80,
    )
        requires start { self.old.start < cycle_limit }
        requires ram { IsSome parcel.old }
        ensures state { state_of self.new parcel.new ≡ went_on cart.now (state_of self.old parcel.old) cause }
        ensures waiting { WaitsFor self.new.stage cart.now (state_of self.new parcel.new) self.new.request }
        ensures predicted { IsPredicted self.new.stage cart.now (state_of self.new parcel.new) self.new.predicted }
    {
        if let Some(parcel) = parcel {
            self.go_on(cause, cart, parcel, cache, progress);
        }
    }

    /// Begins an instruction, where the Z80 has its RAM. One that makes no shared access ends at once,
    /// and an LD to a shared address comes to its write at once.
    #[inline(never)]
    #[tactic(auto, unfolding(crate::specs::Events::went_on))]
    pub fn begin_instruction(
        &mut self,
        cart: &Cart,
        parcel: &mut Option<Parcel>,
        cache: &mut DecodeCache80,
        progress: &mut Progress80,
    )
        requires start { self.old.start < cycle_limit }
        requires ram { IsSome parcel.old }
        requires answers { self.old.answers.items ≡ [] }
        ensures state { state_of self.new parcel.new ≡ went_on cart.now (state_of self.old parcel.old) 0 }
        ensures waiting { WaitsFor self.new.stage cart.now (state_of self.new parcel.new) self.new.request }
        ensures predicted { IsPredicted self.new.stage cart.now (state_of self.new parcel.new) self.new.predicted }
    {
        if let Some(parcel) = parcel {
            match run_private(&mut self.regs, parcel, cache, &mut self.predicted) {
                Some(step) => match step {
                    Step80::Done(finish) => self.finish(&finish),
                    Step80::Need(waiting) => self.ask(0, waiting),
                },
                None => self.go_on(0, cart, parcel, cache, progress),
            }
        }
    }
}

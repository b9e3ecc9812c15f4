ghost use Rattle.std.specs.Prelude.{◌≡◌, ◌+◌, ◌^◌, ◌<◌, Option, option_map, []};
ghost use Rattle.md_word.specs.Clock.{cycle_limit};
ghost use Rattle.md_word.specs.declared.sub_bus.Parcel.{Parcel as Held};
ghost use Rattle.z80_chip.specs.Events as events;
ghost use Rattle.z80_chip.specs.declared.stage.Stage.TheVariants as stages;
ghost use Rattle.z80_chip.specs.States.{State80, no_regs, power_on, state_of};
ghost use Rattle.z80_parcel.specs.Parcels.{Store, store_of};

use crate::stage::Stage;
use arrayvec::ArrayVec;
use md_word::clock::SUB_GAP;
use z80_decode::InterruptMode;
use z80_exec::{Predicted80, Regs80, Waiting};

/// The master cycles from a sample to the first access, to a yield and to a take, and for which a
/// halted Z80 waits.
pub const FIRST_STEP: u64 = 60;

/// The master cycles from one access to the next, and for which a Z80 waits that is in reset or has
/// no RAM.
pub const STEP: u64 = SUB_GAP;

/// The registers of the Z80, and its state between two of its events. Cycles are master cycles.
#[derive(Drop)]
pub struct Sequencer {
    pub regs: Regs80,
    /// The cycle of the next event.
    pub next: u64,
    /// What the next event is.
    pub stage: Stage,
    /// The cycle of the last sample at an access, a yield or a take; else `next`.
    pub start: u64,
    pub halted: bool,
    /// The last instruction was EI.
    pub after_ei: bool,
    /// How many resets it has seen.
    pub resets: u64,
    /// What is carried out at an access: 0 an instruction, 1 an interrupt.
    pub cause: u8,
    /// What its accesses have answered so far.
    pub answers: ArrayVec<u8, 4>,
    /// The request that waits for its answer at an access; at other events it may be any that did.
    pub request: Option<Waiting>,
    /// What follows the answer, where that is known.
    pub predicted: Predicted80,
}

impl Sequencer {
    /// The Z80 at power-on, whose registers are 0.
    #[tactic(auto, unfolding(crate::specs::States::power_on))]
    pub fn power_on() -> Sequencer
        ensures { (parcel : Option Held) → state_of result parcel ≡ record power_on { store = option_map store_of parcel } }
    {
        Sequencer {
            regs: Regs80 {
                af: 0,
                bc: 0,
                de: 0,
                hl: 0,
                af2: 0,
                bc2: 0,
                de2: 0,
                hl2: 0,
                ix: 0,
                iy: 0,
                sp: 0,
                pc: 0,
                i: 0,
                r: 0,
                iff1: false,
                iff2: false,
                mode: InterruptMode::Mode0,
            },
            next: 0,
            stage: Stage::Sample,
            start: 0,
            halted: false,
            after_ei: false,
            resets: 0,
            cause: 0,
            answers: ArrayVec::new(),
            request: None,
            predicted: Predicted80::nothing(),
        }
    }

    /// Rests until a sample so many cycles after the last.
    pub fn wait(&mut self, cycles: u64)
        requires start { self.old.start < 2 ^ 51 }
        requires cycles { cycles < 2 ^ 51 }
        ensures state { (parcel : Option Held) → state_of self.new parcel ≡ events.waited (state_of self.old parcel) cycles }
        ensures stage { self.new.stage ≡ stages.Sample }
    {
        self.next = self.start + cycles;
        self.start = self.next;
        self.stage = Stage::Sample;
    }

    /// Goes to a yield or a take.
    pub fn go_to(&mut self, stage: Stage)
        requires { self.old.start < cycle_limit }
        ensures state { (parcel : Option Held) → state_of self.new parcel ≡ events.moving (state_of self.old parcel) stage }
        ensures stage { self.new.stage ≡ stage }
    {
        self.next = self.start + FIRST_STEP;
        self.stage = stage;
    }
}

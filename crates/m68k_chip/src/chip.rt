ghost use Rattle.std.specs.Prelude.{◌≡◌, ◌<◌, true, false, replicate, IfOk, IsTrue};
ghost use Rattle.md_word.specs.Clock.{cycle_limit};
ghost use Rattle.m68k_access.specs.Memory.{ram_size};

use crate::case::Case;
use crate::iteration::{Iteration, Place};
use crate::repetition::Patience;
use crate::sequencer::Sequencer;
use crate::stage::Stage;
use m68k_access::memory::RAM_SIZE;
use m68k_exec::{DecodeCache, Progress};
use md_word::{Answer68, Key, Next, NoMemory, Pins68, Regs, Request68};
use rom_header::Cart;
use std::alloc::Global;
use std::marker::Model;
use std::sync::Arc;

/// The 68000, with the cartridge and the work RAM, which no other chip reaches. It is at its
/// next event, and what it does without other chips belongs to the event before. Cycles are master
/// cycles, 7 a clock. Source: M68000 Programmer's Reference Manual; M68000 User's Manual, sections
/// 5, 6 and 8; the places of events are this project's profile.
#[derive(Drop)]
pub struct Chip68 {
    pub(crate) cart: Arc<Cart>,
    pub(crate) ram: Box<[u8; RAM_SIZE]>,
    pub(crate) sequencer: Sequencer,
    pub(crate) progress: Progress,
    pub(crate) cache: DecodeCache,
    /// The iteration on which it may be, so that a loop that waits is not carried out again each time.
    pub(crate) iteration: Iteration,
    /// A second one, with another answer to the same read.
    pub(crate) other: Iteration,
    /// When it is looked for whether samples repeat.
    pub(crate) patience: Patience,
}

impl Model for Chip68 {
    ghost use Rattle.std.specs.Arc.{arc_value};
    ghost use Rattle.m68k_chip.specs.Validity.{Chip68Value};
    ghost use Rattle.m68k_chip.specs.States.{state_of};
    ghost use Rattle.m68k_chip.specs.Held.{IsHeld};
    ghost use Rattle.m68k_chip.specs.Iterations.{IsAside, IsOn};
    ghost use Rattle.m68k_exec.specs.Sample.Caches.{IsCacheOf};

    ghost Value = { Chip68Value };

    ghost view = { λ chip. record { cart = arc_value chip.cart; state = state_of chip.sequencer chip.ram.value } };

    ghost invariant = { λ chip. IsHeld (record { cart = arc_value chip.cart; state = state_of chip.sequencer chip.ram.value }) chip.sequencer.request chip.sequencer.predicted × IsCacheOf (arc_value chip.cart) chip.cache
        × IsOn chip.iteration.place chip.iteration (arc_value chip.cart) (state_of chip.sequencer chip.ram.value) chip.sequencer.request chip.sequencer.predicted
        × IsAside chip.other (arc_value chip.cart) chip.ram.value };
}

impl Chip68 {
    ghost use Rattle.std.specs.Arc.{arc_value};
    ghost use Rattle.m68k_chip.specs.Cases.{begins_at, case_of};
    ghost use Rattle.m68k_chip.specs.Events.{answered, begun, request_of};
    ghost use Rattle.m68k_chip.specs.Validity.{Fits, IsChip68};
    ghost use Rattle.m68k_chip.specs.States.{next_of, power_on};

    /// The 68000 at power-on: its next event is a sample at cycle 0. The supervisor's stack pointer
    /// is the long at 0 of the cartridge and the program counter the long at 4; SR is 2700h, and all
    /// else 0. It fails only where memory runs out: work RAM takes 64 KiB, and the cache of instructions 128 KiB.
    pub fn power_on(alloc: Global, cart: Arc<Cart>) -> Result<Chip68, NoMemory>
        ensures { IfOk result (λ chip. chip ≡ record { cart = arc_value cart; state = power_on (arc_value cart) }) }
    {
        let cache = DecodeCache::empty(alloc)?;
        let ram = zeroed(alloc)?;
        let none = Iteration::none();
        let patience = Patience::new();
        let sequencer = Sequencer::power_on(cart.bytes());
        Ok(Chip68 {
            cart,
            ram,
            sequencer,
            progress: Progress::new(),
            cache,
            iteration: none,
            other: none,
            patience,
        })
    }

    /// The next event: its master cycle, the chip's number, which is 0, and whether it is a sample.
    #[tactic(auto, unfolding(crate::specs::States::next_of))]
    pub fn next(&self) -> Next
        ensures value { result ≡ next_of self.now.state }
        ensures valid { IsChip68 self.now }
    {
        Next {
            key: Key {
                cycle: self.sequencer.next,
                chip: 0,
            },
            sample: matches!(self.sequencer.stage, Stage::Sample),
        }
    }

    /// The access that is the next event.
    #[tactic(auto, unfolding(crate::specs::Events::request_of))]
    pub fn request(&self) -> Request68
        requires { (next_of self.now.state).sample ≡ false }
        ensures { result ≡ request_of self.now.cart self.now.state }
    {
        self.sequencer.asked(&self.cart, &self.ram)
    }

    /// Takes the answer to the access that is the next event, and continues to the event after it.
    /// Work RAM is written once all accesses of an instruction are answered, and not before.
    pub fn answer(&mut self, answer: Answer68)
        requires asking { (next_of self.old.state).sample ≡ false }
        requires far { self.old.state.next < cycle_limit }
        requires fits { Fits (request_of self.old.cart self.old.state) answer }
        ensures { self.new ≡ record self.old { state = answered self.old.cart self.old.state answer } }
    {
        if self.iteration.is_read_again(&answer) {
            self.iteration.place = Place::PastRead;
            let cycle = self.sequencer.start + u64::from(self.iteration.first);
            self.sequencer.stand_after(&self.iteration.after, cycle);
        } else {
            self.answer_predicted(&answer);
        }
    }

    /// `answer`, where it may be known what comes: the access is then the last of an instruction that writes nothing
    /// into work RAM.
    #[inline(never)]
    fn answer_predicted(&mut self, answer: &Answer68)
        requires asking { (next_of self.old.state).sample ≡ false }
        requires far { self.old.state.next < cycle_limit }
        requires fits { Fits (request_of self.old.cart self.old.state) answer.now }
        ensures { self.new ≡ record self.old { state = answered self.old.cart self.old.state answer.now } }
    {
        if self.sequencer.is_predicted() {
            self.iteration.leave();
            self.sequencer.take_predicted(answer);
        } else {
            self.answer_otherwise(answer);
        }
    }

    /// `answer`, where the iteration that is known does not say what comes: perhaps the other one does.
    #[inline(never)]
    fn answer_otherwise(&mut self, answer: &Answer68)
        requires asking { (next_of self.old.state).sample ≡ false }
        requires far { self.old.state.next < cycle_limit }
        requires fits { Fits (request_of self.old.cart self.old.state) answer.now }
        ensures { self.new ≡ record self.old { state = answered self.old.cart self.old.state answer.now } }
    {
        if self.other.is_begun(&self.sequencer, answer) {
            self.iteration.exchange(&mut self.other);
            self.iteration.place = Place::PastRead;
            let cycle = self.sequencer.start + u64::from(self.iteration.first);
            self.sequencer.stand_after(&self.iteration.after, cycle);
        } else {
            self.answer_again(answer);
        }
    }

    /// `answer`, where no iteration says what comes.
    fn answer_again(&mut self, answer: &Answer68)
        requires asking { (next_of self.old.state).sample ≡ false }
        requires far { self.old.state.next < cycle_limit }
        requires fits { Fits (request_of self.old.cart self.old.state) answer.now }
        ensures { self.new ≡ record self.old { state = answered self.old.cart self.old.state answer.now } }
    {
        let begins = self
            .iteration
            .begins(&self.sequencer, answer, &mut self.other);
        self.sequencer.answer(
            answer,
            &self.cart,
            &mut self.ram,
            &mut self.cache,
            &mut self.progress,
        );
        let quiet = self.progress.writes.is_empty();
        self.other.keep(quiet);
        self.iteration.take(&self.sequencer, begins, quiet);
    }

    /// Takes the sample that is the next event, and continues to the event after it. A sample takes a pending
    /// trace, an interrupt above the mask, or the instruction at the program counter, up to the first shared access
    /// if there is one. Where the processor is halted or stopped, the next sample follows 28 cycles later.
    pub fn sample(&mut self, pins: Pins68)
        requires sampling { (next_of self.old.state).sample ≡ true }
        requires far { self.old.state.next < cycle_limit }
        ensures { self.new ≡ record self.old { state = begun self.old.cart self.old.state pins.level } }
    {
        let _quiet = self.sample_quietly(pins);
    }

    /// `sample`; answers whether nothing was written into work RAM.
    pub(crate) fn sample_quietly(&mut self, pins: Pins68) -> bool
        requires sampling { (next_of self.old.state).sample ≡ true }
        requires far { self.old.state.next < cycle_limit }
        ensures chip { self.new ≡ record self.old { state = begun self.old.cart self.old.state pins.level } }
        ensures quiet { IsTrue result → self.new.state.ram ≡ self.old.state.ram }
    {
        self.iteration.place = Place::Away;
        self.sequencer.begin(
            pins.level,
            &self.cart,
            &mut self.ram,
            &mut self.cache,
            &mut self.progress,
        );
        let quiet = self.progress.writes.is_empty();
        self.other.keep(quiet);
        quiet
    }

    /// The address of the instruction that the next event begins, which is a sample with these
    /// pins; None where it does nothing, being halted or stopped, or begins a trace or an interrupt.
    pub fn begins(&self, pins: Pins68) -> Option<u32>
        requires { (next_of self.now.state).sample ≡ true }
        ensures { result ≡ begins_at (case_of self.now.state pins.level) self.now.state.regs.pc }
    {
        match self.sequencer.case_at(pins.level) {
            Case::Instruction => Some(self.sequencer.regs.pc),
            Case::Halted | Case::Trace | Case::Interrupt(_) | Case::Stopped => None,
        }
    }

    /// The cartridge.
    pub fn cart(&self) -> &Cart
        ensures { result.now ≡ self.now.cart }
    {
        &self.cart
    }

    /// Where the processor is halted, the master cycle at which the instruction or exception began that halted it;
    /// None where it is not halted.
    pub fn halted(&self) -> Option<u64>
        ensures { result ≡ self.now.state.halted }
    {
        self.sequencer.halted
    }

    /// The registers.
    pub fn regs(&self) -> &Regs
        ensures { result.now ≡ self.now.state.regs }
    {
        &self.sequencer.regs
    }

    /// The work RAM, which is repeated from E00000h to FFFFFFh.
    pub fn ram(&self) -> &[u8; RAM_SIZE]
        ensures { result.now ≡ self.now.state.ram }
    {
        &self.ram
    }
}

/// The work RAM at power-on.
fn zeroed(alloc: Global) -> Result<Box<[u8; RAM_SIZE]>, NoMemory>
    ensures { IfOk result (λ ram. ram.value ≡ replicate ram_size 0) }
{
    match Box::new(alloc, [0; RAM_SIZE]) {
        Ok(ram) => Ok(ram),
        Err(_) => Err(NoMemory),
    }
}

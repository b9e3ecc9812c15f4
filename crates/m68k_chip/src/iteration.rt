ghost use Rattle.std.specs.Prelude.{◌≡◌, ◌+◌, ◌<◌, ◌≤◌, ℕ, List, Option, IfSome, IsTrue};
ghost use Rattle.md_word.specs.Clock.{cycle_limit};
ghost use Rattle.md_word.specs.declared.main_bus.Request68.{Request68};
ghost use Rattle.m68k_exec.specs.declared.sample.step.Predicted.{Predicted};
ghost use Rattle.m68k_chip.specs.Events.{answered};
ghost use Rattle.m68k_chip.specs.Iterations.{HasWatched, IsAside, IsIteration, IsOn, reading};
ghost use Rattle.m68k_chip.specs.States.{State68, state_of};
ghost use Rattle.m68k_chip.specs.declared.iteration.Place.TheVariants.{Away, Opened, Learned, AtRead, PastRead};

use crate::sequencer::Sequencer;
use crate::watched::Watched;
use md_word::{Answer68, Regs};

/// Where the 68000 is on an iteration.
#[derive(Clone, Copy)]
pub enum Place {
    /// No iteration is known.
    Away,
    /// After the answer to a read, with which an iteration may have begun.
    Opened,
    /// Somewhere, with work RAM as the iteration that is known leaves it.
    Learned,
    /// At the read of the iteration that is known.
    AtRead,
    /// After its answer.
    PastRead,
}

/// An iteration of an idle loop, which waits until a read is answered otherwise. It leads from the read by instructions
/// that write nothing and make no other access back to the read, with the same registers. Once it was gone through, it
/// is taken in one step, for as long as the answer, the interrupt level and work RAM stay.
#[derive(Clone, Copy)]
pub struct Iteration {
    pub place: Place,
    /// The registers at the read.
    pub from: Regs,
    /// The registers after its answer.
    pub after: Regs,
    pub answer: Answer68,
    /// The cycle at which the instruction began that reads, when the iteration was gone through.
    pub start: u64,
    /// The master cycles from there to the sample after the answer.
    pub first: u32,
    /// How many samples lead back to the read.
    pub samples: u64,
    /// The interrupt level at them.
    pub level: u8,
    /// The master cycles from the first of them to the last.
    pub last: u32,
    /// The master cycles from the first of them to the start of the instruction that reads again.
    pub rest: u32,
}

pub const NO_REGISTERS: Regs = Regs {
    d: [0; 8],
    a: [0; 7],
    usp: 0,
    ssp: 0,
    pc: 0,
    sr: 0,
};

/// How many cycles lead from one to another, if they are few.
fn cycles_between(from: u64, to: u64) -> Option<u32>
    ensures { IfSome result (λ cycles. from + cycles ≡ to) }
{
    if from <= to && to - from <= 0xffff_ffff {
        Some((to - from) as u32)
    } else {
        None
    }
}

/// Whether registers are the same.
pub fn are_same(a: &Regs, b: &Regs) -> bool
    ensures { IsTrue result → a.now ≡ b.now }
{
    a.pc == b.pc && a.sr == b.sr && a.usp == b.usp && a.ssp == b.ssp && a.d == b.d && a.a == b.a
}

impl Iteration {
    /// No iteration.
    pub fn none() -> Iteration
        ensures { result.place ≡ Away }
    {
        Iteration {
            place: Place::Away,
            from: NO_REGISTERS,
            after: NO_REGISTERS,
            answer: Answer68 {
                value: 0,
                transfer: None,
                cost: 0,
            },
            start: 0,
            first: 0,
            samples: 0,
            level: 0,
            last: 0,
            rest: 0,
        }
    }

    /// Whether the 68000 is at the read, and that is answered as on the iteration.
    #[inline(always)]
    pub fn is_read_again(&self, answer: &Answer68) -> bool
        ensures place { IsTrue result → self.now.place ≡ AtRead }
        ensures answer { IsTrue result → answer.now ≡ self.now.answer }
    {
        matches!(self.place, Place::AtRead) && answer.transfer.is_none() && *answer == self.answer
    }

    /// Whether the 68000 is after the answer, and all samples of the iteration come at this interrupt level, and
    /// below a cycle, where the first comes at `start`.
    #[inline(always)]
    pub fn leads_back(&self, level: u8, start: u64, end: u64) -> bool
        requires { start < cycle_limit }
        ensures place { IsTrue result → self.now.place ≡ PastRead }
        ensures level { IsTrue result → level ≡ self.now.level }
        ensures below { IsTrue result → start + self.now.last < end }
    {
        matches!(self.place, Place::PastRead)
            && self.level == level
            && start + u64::from(self.last) < end
    }

    /// Keeps the read that is about to be answered, if an iteration may begin with it: not where one is known that begins
    /// there with another answer. An iteration that is known goes to `other`.
    #[inline(always)]
    pub fn begins(
        &mut self,
        sequencer: &Sequencer,
        answer: &Answer68,
        other: &mut Iteration,
    ) -> bool
        ensures reading { (ram : List ℕ) → IsTrue result → state_of sequencer.now ram ≡ reading ram self.new.from self.new.start }
        ensures answer { IsTrue result → self.new.answer ≡ answer.now }
        ensures at_read { self.new.place ≡ AtRead → self.new ≡ self.old }
        ensures other { (cart : List ℕ) (state : State68) (request : Option Request68) (predicted : Predicted) → IsOn self.old.place self.old cart state request predicted → IsAside other.old cart state.ram → IsAside other.new cart state.ram }
    {
        if matches!(self.place, Place::AtRead) {
            return false;
        }
        if sequencer.reads() && sequencer.is_reading() {
            self.put_aside(other);
            self.from = sequencer.regs;
            self.start = sequencer.start;
            self.answer = *answer;
            return true;
        }
        false
    }

    /// Puts an iteration aside that is known.
    fn put_aside(&self, other: &mut Iteration)
        ensures { (cart : List ℕ) (state : State68) (request : Option Request68) (predicted : Predicted) → IsOn self.now.place self.now cart state request predicted → IsAside other.old cart state.ram → IsAside other.new cart state.ram }
    {
        if matches!(self.place, Place::Learned) {
            *other = *self;
        }
    }

    /// Takes the place of the other iteration, which becomes this one where it is known.
    pub fn exchange(&mut self, other: &mut Iteration)
        ensures iteration { self.new ≡ other.old }
        ensures other { (cart : List ℕ) (state : State68) (request : Option Request68) (predicted : Predicted) → IsOn self.old.place self.old cart state request predicted → IsAside other.new cart state.ram }
    {
        let known = *other;
        *other = *self;
        other.place = match self.place {
            Place::AtRead | Place::Learned => Place::Learned,
            Place::Away | Place::Opened | Place::PastRead => Place::Away,
        };
        *self = known;
    }

    /// Stays known where nothing was written.
    #[inline(always)]
    pub fn keep(&mut self, quiet: bool)
        ensures { (cart before ram : List ℕ) → IsAside self.old cart before → (IsTrue quiet → ram ≡ before) → IsAside self.new cart ram }
    {
        if !quiet {
            self.place = Place::Away;
        }
    }

    /// Whether this iteration, which was put aside, is the one that begins with this answer to the read at which the 68000
    /// is.
    pub fn is_begun(&self, sequencer: &Sequencer, answer: &Answer68) -> bool
        ensures place { IsTrue result → self.now.place ≡ Learned }
        ensures answer { IsTrue result → answer.now ≡ self.now.answer }
        ensures reading { (ram : List ℕ) → IsTrue result → state_of sequencer.now ram ≡ reading ram self.now.from sequencer.now.start }
        ensures late { IsTrue result → self.now.start ≤ sequencer.now.start }
    {
        matches!(self.place, Place::Learned)
            && answer.transfer.is_none()
            && *answer == self.answer
            && self.start <= sequencer.start
            && sequencer.is_reading()
            && are_same(&sequencer.regs, &self.from)
    }

    /// An access was answered, where nothing was written if `quiet`. If it was the read that was kept, `begins`, an iteration
    /// may have begun; else one that begins at it with another answer stays known.
    #[inline(always)]
    pub fn take(&mut self, sequencer: &Sequencer, begins: bool, quiet: bool)
        ensures { (cart before ram : List ℕ) → (IsTrue begins → IsTrue quiet → answered cart (reading ram self.old.from self.old.start) self.old.answer ≡ state_of sequencer.now ram)
            → (self.old.place ≡ AtRead → IsIteration self.old cart before) → (IsTrue quiet → ram ≡ before)
            → IsOn self.new.place self.new cart (state_of sequencer.now ram) sequencer.now.request sequencer.now.predicted }
    {
        if quiet && begins {
            self.follow(sequencer);
        } else if quiet && matches!(self.place, Place::AtRead) {
            self.place = Place::Learned;
        } else {
            self.place = Place::Away;
        }
    }

    /// Another access than the read was answered, or the read with another answer, and nothing was written.
    #[inline(always)]
    pub fn leave(&mut self)
        ensures { (cart : List ℕ) (state : State68) (request : Option Request68) (predicted : Predicted) → (self.old.place ≡ AtRead → IsIteration self.old cart state.ram) → IsOn self.new.place self.new cart state request predicted }
    {
        self.place = match self.place {
            Place::AtRead => Place::Learned,
            Place::Away | Place::Opened | Place::Learned | Place::PastRead => Place::Away,
        };
    }

    /// An iteration may have begun with the read that was kept.
    #[inline(never)]
    fn follow(&mut self, sequencer: &Sequencer)
        ensures { (cart ram : List ℕ) → answered cart (reading ram self.old.from self.old.start) self.old.answer ≡ state_of sequencer.now ram
            → IsOn self.new.place self.new cart (state_of sequencer.now ram) sequencer.now.request sequencer.now.predicted }
    {
        self.place = Place::Away;
        if sequencer.is_sampling() {
            if let Some(first) = cycles_between(self.start, sequencer.start) {
                self.place = Place::Opened;
                self.after = sequencer.regs;
                self.first = first;
            }
        }
    }

    /// Samples at this interrupt level led from a place of the iteration to where the 68000 is, the first of them at
    /// the cycle `begun`. Where it is at the read again, an iteration is known.
    pub fn go_on(&mut self, sequencer: &Sequencer, watched: &Watched, begun: u64, level: u8)
        ensures { (cart ram : List ℕ) (before : State68) (request : Option Request68) (predicted : Predicted) (end : ℕ) → IsOn self.old.place self.old cart before request predicted
            → HasWatched watched.now end cart level before (state_of sequencer.now ram) → before.start ≡ begun
            → IsOn self.new.place self.new cart (state_of sequencer.now ram) sequencer.now.request sequencer.now.predicted }
    {
        let place = self.place;
        self.place = Place::Away;
        if watched.quiet {
            match place {
                Place::Away | Place::AtRead => {}
                Place::Opened => self.close(sequencer, watched, begun, level),
                Place::Learned | Place::PastRead => self.come_back(sequencer),
            }
        }
    }

    /// Closes an iteration that had begun, where the 68000 is at its read again.
    fn close(&mut self, sequencer: &Sequencer, watched: &Watched, begun: u64, level: u8)
        requires { self.old.place ≡ Away }
        ensures { (cart ram : List ℕ) (before : State68) (request : Option Request68) (predicted : Predicted) (end : ℕ) → IsOn Opened self.old cart before request predicted
            → HasWatched watched.now end cart level before (state_of sequencer.now ram) → before.start ≡ begun → ram ≡ before.ram
            → IsOn self.new.place self.new cart (state_of sequencer.now ram) sequencer.now.request sequencer.now.predicted }
    {
        if sequencer.is_reading() && are_same(&sequencer.regs, &self.from) {
            let last = cycles_between(begun, watched.latest);
            let rest = cycles_between(begun, sequencer.start);
            if let (Some(last), Some(rest)) = (last, rest) {
                self.place = Place::AtRead;
                self.samples = watched.samples;
                self.level = level;
                self.last = last;
                self.rest = rest;
            }
        }
    }

    /// The iteration is known, and the 68000 may be at its read again.
    fn come_back(&mut self, sequencer: &Sequencer)
        ensures { (cart ram : List ℕ) → IsIteration self.old cart ram → IsOn self.new.place self.new cart (state_of sequencer.now ram) sequencer.now.request sequencer.now.predicted }
    {
        self.place = if sequencer.is_reading()
            && are_same(&sequencer.regs, &self.from)
            && self.start <= sequencer.start
        {
            Place::AtRead
        } else {
            Place::Learned
        };
    }
}

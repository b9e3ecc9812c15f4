ghost use Rattle.std.specs.Prelude.{◌≡◌, ◌↔◌};
ghost use Rattle.chip_run.specs.Leads.{IsLed};
ghost use Rattle.chip_run.specs.Places.{AllFree, AreOnPaths};
ghost use Rattle.chip_run.specs.Rounds.{IsEnded, IsRound, IsSwept, Keeps};

use crate::leading::lead;
use crate::sweep::{Swept, look};
use crate::{Helds, Locked, Named, Passage, Round};
use chip_core::ChipSet;
use std::sync::{Condvar, Mutex, Wait};
use work_sharing::Led;

/// The bus lock of a run: what the chips share behind one lock, and where workers wait for it to
/// change. With it the queue of the chips' speculative jobs, if any chip has some.
#[derive(Drop)]
pub struct Bus<C: ChipSet, N: Named> {
    lock: Mutex<Locked<C, N>>,
    moved: Condvar,
    pub(crate) end: u64,
    pub(crate) jobs: Option<C::Jobs>,
    ghost ends: { end ≡ N.end },
}

impl<C: ChipSet, N: Named> Bus<C, N> {
    /// The bus with this value behind its lock.
    pub(crate) fn over(locked: Locked<C, N>, end: u64, jobs: Option<C::Jobs>) -> Self
        requires { end ≡ N.end }
    {
        Bus {
            lock: Mutex::new(locked),
            moved: Condvar::new(),
            end,
            jobs,
        }
    }

    /// One look at the held chips under one lock. It ends with a wait where none of them can move
    /// and the least of those that are not finished waits for a chip of another worker.
    ///
    /// The bounds are read and the wait begins under the same lock, and each change of a bound is
    /// signalled to all who wait: so no change is missed.
    fn round<R: Wait>(&self, rt: &R, helds: &mut Helds<C, N>) -> Swept
        requires free { AllFree helds.old }
        requires whole { (N.L0.parts ≡ 1) × (N.L1.parts ≡ 1) × (N.L2.parts ≡ 1) × (N.L3.parts ≡ 1) × (N.L4.parts ≡ 1) }
        ensures { IsSwept C.rules N.end helds.old result helds.new }
    {
        let mut guard = self.lock.lock(rt);
        let mut changed = false;
        let swept = look(&mut *guard, helds, &mut changed);
        if changed {
            self.moved.notify_all();
        }
        if let Swept::Blocked { other } = swept {
            if !helds.has(other) {
                let _guard = self.moved.wait(rt, guard);
            }
        }
        swept
    }

    /// Takes turns until one of the held chips has made its event and its private work, or all are
    /// finished.
    ///
    /// It goes by rounds, each with one look under the lock. Before each it passes the gate for
    /// each held chip that is not finished.
    pub fn wait_turn<R: Wait, G: Passage>(&self, rt: &R, helds: &mut Helds<C, N>, gate: &G) -> Round
        requires free { AllFree helds.old }
        requires whole { (N.L0.parts ≡ 1) × (N.L1.parts ≡ 1) × (N.L2.parts ≡ 1) × (N.L3.parts ≡ 1) × (N.L4.parts ≡ 1) }
        ensures round { IsRound C.rules N.end helds.old result helds.new }
        ensures finished { (result ≡ Round.Finished) ↔ IsEnded C.rules N.end helds.old }
        ensures free { AllFree helds.new }
        ensures paths { AreOnPaths C.rules (C.core_of N.base) N.end helds.new }
    {
        for _ in rt.forever() {
            helds.pass_all(self.end, gate);
            match self.round(rt, helds) {
                Swept::Moved(chip) => {
                    helds.settle_chip(chip);
                    helds.known();
                    return Round::Moved(chip);
                }
                Swept::Blocked { other: _ } => {}
                Swept::Finished => {
                    helds.known();
                    return Round::Finished;
                }
            }
        }
        unreachable!()
    }

    /// Takes the turns of the held chips under one lock, as far as `lead` does. `reports`: whether it notifies
    /// workers that may wait for a bound to change.
    pub(crate) fn turns<R: Wait>(&self, rt: &R, helds: &mut Helds<C, N>, reports: bool) -> Led
        requires free { AllFree helds.old }
        requires whole { (N.L0.parts ≡ 1) × (N.L1.parts ≡ 1) × (N.L2.parts ≡ 1) × (N.L3.parts ≡ 1) × (N.L4.parts ≡ 1) }
        ensures { IsLed result helds.new }
    {
        let mut guard = self.lock.lock(rt);
        let led = lead(rt, &mut *guard, helds);
        if reports {
            self.moved.notify_all();
        }
        led
    }

    /// Takes turns until all held chips are finished.
    pub(crate) fn serve<R: Wait, G: Passage>(&self, rt: &R, helds: &mut Helds<C, N>, gate: &G)
        requires free { AllFree helds.old }
        requires whole { (N.L0.parts ≡ 1) × (N.L1.parts ≡ 1) × (N.L2.parts ≡ 1) × (N.L3.parts ≡ 1) × (N.L4.parts ≡ 1) }
        ensures keeps { Keeps helds.old helds.new }
        ensures ended { IsEnded C.rules N.end helds.new }
    {
        for _ in rt.forever() {
            match self.wait_turn(rt, helds, gate) {
                Round::Moved(_) => {}
                Round::Finished => return,
            }
        }
        unreachable!()
    }

    /// What the lock held.
    pub(crate) fn into_locked(self) -> Locked<C, N> {
        let Bus {
            lock,
            moved: _,
            end: _,
            jobs: _,
        } = self;
        lock.into_inner()
    }
}

ghost use Rattle.work_sharing.specs.Dues.{AllFree};

use crate::work_queue::WorkQueue;
use crate::work_queue::laid::Found;
use crate::{Holder, Turns};
use std::hint::spin_loop;
use std::sync::Wait;
use std::sync::atomic::Ordering;

/// How often a helper looks for work before it sleeps.
const LOOKS: u32 = 20_000;

/// How often it looks for a job before it ends, where no more work comes.
const LAST_LOOKS: u32 = 1_000;

/// Runs a job, if one is queued that nobody has begun; answers whether one was.
fn run_job<G, H: Holder, T: Turns<G, H>, R: Wait>(rt: &R, turns: &T) -> bool {
    if !turns.has_job() {
        return false;
    }
    turns.run_job(rt);
    true
}

impl<H: Holder> WorkQueue<H> {
    /// Does private work that is due, if there is any; answers what was found.
    fn do_first<R: Wait>(&self, rt: &R) -> Found {
        let mut one = H::none();
        self.do_with(rt, &mut one)
    }

    /// The same with a holder in which no work is due.
    fn do_with<R: Wait>(&self, rt: &R, one: &mut H) -> Found
        requires { AllFree H.is_free one.old }
        ensures { AllFree H.is_free one.new }
    {
        let found = self.take_first(rt, one);
        match found {
            Found::Chip(chip) => {
                one.settle(chip);
                self.lay_done(rt, one, chip);
            }
            Found::Nothing => {}
            Found::Over => {}
        }
        found
    }

    /// Does due private work until no more comes, or enough others wait for it, and runs jobs where none is
    /// due.
    pub(crate) fn help<G, T: Turns<G, H>, R: Wait>(&self, rt: &R, turns: &T) {
        for _ in rt.forever() {
            if !self.help_once::<G, T, R>(rt, turns) {
                return;
            }
        }
        unreachable!()
    }

    /// Does private work that is due, or else what a helper does without any; answers whether it continues.
    fn help_once<G, T: Turns<G, H>, R: Wait>(&self, rt: &R, turns: &T) -> bool {
        let seen = self.changes.load(Ordering::SeqCst);
        match self.do_first(rt) {
            Found::Chip(_) => true,
            Found::Nothing => self.run_or_wait::<G, T, R>(rt, seen, turns),
            Found::Over => {
                self.linger::<G, T, R>(rt, turns);
                false
            }
        }
    }

    /// Runs a job, or else waits for a change after so many; answers whether it continues.
    fn run_or_wait<G, T: Turns<G, H>, R: Wait>(&self, rt: &R, seen: u64, turns: &T) -> bool {
        if run_job::<G, H, T, R>(rt, turns) {
            return true;
        }
        self.wait_for_change::<G, T, R>(rt, seen, turns)
    }

    /// Waits for a change after so many: it looks for a while, and then sleeps, but not while a job is
    /// queued. Answers whether it continues: it does not where enough other helpers look and no change came.
    ///
    /// No change is missed. It is counted before the one who makes it looks for a watch. A helper ends its watch
    /// before it looks at the count for the last time, under the lock under which it is woken.
    fn wait_for_change<G, T: Turns<G, H>, R: Wait>(&self, rt: &R, seen: u64, turns: &T) -> bool {
        let others = self.watches.fetch_add(1, Ordering::SeqCst);
        if others < self.staying {
            self.look::<G, T>(seen, turns, LOOKS);
        }
        self.watches.fetch_sub(1, Ordering::SeqCst);
        if others >= self.staying {
            return self.changes.load(Ordering::SeqCst) != seen;
        }
        if !turns.has_job() {
            self.sleep(rt, seen);
        }
        true
    }

    /// Sleeps until a change after so many, unless one came.
    fn sleep<R: Wait>(&self, rt: &R, seen: u64) {
        let guard = self.lock.lock(rt);
        if self.changes.load(Ordering::SeqCst) == seen {
            let _guard = self.work.wait(rt, guard);
        }
    }

    /// Looks for a change after so many, or for a job, until there is one, so often at most.
    fn look<G, T: Turns<G, H>>(&self, seen: u64, turns: &T, times: u32) {
        for _ in 0..times {
            if self.changes.load(Ordering::SeqCst) != seen || turns.has_job() {
                return;
            }
            spin_loop();
        }
    }

    /// Looks for a job for a while, and runs it and those that are queued then, as long as the run has not
    /// ended: from there the leader waits for the helper.
    ///
    /// No end is missed: the run is flagged as ended before that is counted as a change, and a helper reads the
    /// count before the flag.
    fn linger<G, T: Turns<G, H>, R: Wait>(&self, rt: &R, turns: &T) {
        let seen = self.changes.load(Ordering::SeqCst);
        if !turns.has_jobs() || self.ended.load(Ordering::SeqCst) {
            return;
        }
        self.look::<G, T>(seen, turns, LAST_LOOKS);
        for _ in rt.forever() {
            if self.ended.load(Ordering::SeqCst) || !run_job::<G, H, T, R>(rt, turns) {
                return;
            }
        }
        unreachable!()
    }
}

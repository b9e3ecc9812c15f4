ghost use Rattle.work_sharing.specs.Dues.{AllFree};

use crate::Holder;
use crate::work_queue::WorkQueue;
use crate::work_queue::laid::Found;
use std::hint::spin_loop;
use std::sync::Wait;
use std::sync::atomic::Ordering;
use std::thread::yield_now;

/// How often the leader looks for a chip before it lets other threads run, and for its helpers to leave before it
/// sleeps.
const GLANCES: u32 = 1_000;

/// How often it lets them run before it does work of another chip.
const YIELDS: u32 = 100;

impl<H: Holder> WorkQueue<H> {
    /// Takes all chips of which no work is due, or else the chip of this number, whose work is then done, or
    /// which waits for its worker. Where it does not lie here, it waits for a while, and then does work of
    /// another chip.
    pub(crate) fn fetch<R: Wait>(&self, rt: &R, helds: &mut H, chip: u8)
        requires { AllFree H.is_free helds.old }
        ensures { AllFree H.is_free helds.new }
    {
        let seen = self.changes.load(Ordering::SeqCst);
        if self.take_all(rt, helds) {
            return;
        }
        if self.take_due(rt, helds, chip) {
            helds.settle(chip);
            return;
        }
        if self.take_waiting(rt, helds, chip) {
            return;
        }
        if self.glance(seen) {
            return;
        }
        match self.take_first(rt, helds) {
            Found::Chip(other) => helds.settle(other),
            Found::Nothing => {}
            Found::Over => {}
        }
    }

    /// Looks for a change after so many for a while, and lets other threads run meanwhile; answers whether one
    /// came.
    fn glance(&self, seen: u64) -> bool {
        for _ in 0..GLANCES {
            if self.changes.load(Ordering::SeqCst) != seen {
                return true;
            }
            spin_loop();
        }
        self.give_way(seen)
    }

    /// Lets other threads run, again and again, until a change comes after so many; answers whether one came.
    fn give_way(&self, seen: u64) -> bool {
        for _ in 0..YIELDS {
            yield_now();
            if self.changes.load(Ordering::SeqCst) != seen {
                return true;
            }
        }
        false
    }

    /// Looks for a while until so many helpers have left. Once the run has ended they do so at once, or after the
    /// job that they are at: to sleep until then, and to be woken, would take longer.
    pub(crate) fn see_off(&self, helpers: u8) {
        for _ in 0..GLANCES {
            if self.left.load(Ordering::SeqCst) >= u64::from(helpers) {
                return;
            }
            spin_loop();
        }
    }
}

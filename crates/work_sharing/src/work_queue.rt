ghost use Rattle.std.specs.Prelude.{◌≡◌, true, false};
ghost use Rattle.work_sharing.specs.Dues.{AllFree, FreeBut, IsFoundDue};

use crate::Holder;
use crate::work_queue::laid::{Found, Laid};
use std::sync::atomic::{AtomicBool, AtomicU64, Ordering};
use std::sync::{Condvar, Mutex, Wait};

mod fetching;
mod helping;
mod laid;

/// How many helpers stay at least where they find no work: two can draw both parts of a picture side by side.
const STAYING: u64 = 2;

/// The work queue. The worker that takes the turns of all chips, the leader, queues here the chips whose private
/// work is worth offloading. Helpers take them, and queue them again once that work is done.
///
/// The leader sleeps nowhere: it does work that nobody has begun itself. A helper that finds none runs a
/// speculative job, if one is queued, but a job wakes nobody. As long as more work may come, two of the helpers
/// stay, or as many as there are chips whose work is worth offloading. They look for work for a while, and then
/// sleep. The others leave.
#[derive(Drop)]
pub struct WorkQueue<H: Holder> {
    lock: Mutex<Laid<H>>,
    work: Condvar,
    /// How often something was queued here, wrapping.
    changes: AtomicU64,
    /// How many helpers look for work without sleeping, as a count that wraps.
    watches: AtomicU64,
    /// How many helpers wait for work at most.
    staying: u64,
    /// Whether the run has ended.
    ended: AtomicBool,
    /// How many helpers are done with this queue.
    left: AtomicU64,
}

impl<H: Holder> WorkQueue<H> {
    /// An empty queue, for helpers of so many chips whose work is worth offloading.
    pub(crate) fn new(worth_offloading: u8) -> Self {
        WorkQueue {
            lock: Mutex::new(Laid::new()),
            work: Condvar::new(),
            changes: AtomicU64::new(0),
            watches: AtomicU64::new(0),
            staying: u64::from(worth_offloading).max(STAYING),
            ended: AtomicBool::new(false),
            left: AtomicU64::new(0),
        }
    }

    /// Queues a chip of which work is due, and wakes a helper where none looks for work.
    pub(crate) fn lay_due<R: Wait>(&self, rt: &R, helds: &mut H, chip: u8)
        requires { FreeBut H.is_free chip helds.old }
        ensures { AllFree H.is_free helds.new }
    {
        self.put_due(rt, helds, chip);
        self.changes.fetch_add(1, Ordering::SeqCst);
        if self.watches.load(Ordering::SeqCst) == 0 {
            let _guard = self.lock.lock(rt);
            self.work.notify_one();
        }
    }

    /// Queues a chip of which work is due, under the lock, and wakes nobody.
    fn put_due<R: Wait>(&self, rt: &R, helds: &mut H, chip: u8)
        requires { FreeBut H.is_free chip helds.old }
        ensures { AllFree H.is_free helds.new }
    {
        let mut guard = self.lock.lock(rt);
        let laid = &mut *guard;
        laid.lay_due(helds, chip);
    }

    /// Queues a chip of which none is due.
    pub(crate) fn lay_done<R: Wait>(&self, rt: &R, helds: &mut H, chip: u8)
        requires { AllFree H.is_free helds.old }
        ensures { AllFree H.is_free helds.new }
    {
        self.put_done(rt, helds, chip);
        self.changes.fetch_add(1, Ordering::SeqCst);
    }

    /// Queues a chip of which none is due, under the lock, and wakes nobody.
    fn put_done<R: Wait>(&self, rt: &R, helds: &mut H, chip: u8)
        requires { AllFree H.is_free helds.old }
        ensures { AllFree H.is_free helds.new }
    {
        let mut guard = self.lock.lock(rt);
        let laid = &mut *guard;
        laid.lay_done(helds, chip);
    }

    /// Takes all chips of which no work is due, under the lock; answers whether there were any.
    fn take_all<R: Wait>(&self, rt: &R, helds: &mut H) -> bool
        requires { AllFree H.is_free helds.old }
        ensures { AllFree H.is_free helds.new }
    {
        let mut guard = self.lock.lock(rt);
        let laid = &mut *guard;
        laid.take_all(helds)
    }

    /// Takes the first chip of which work is due, under the lock.
    fn take_first<R: Wait>(&self, rt: &R, helds: &mut H) -> Found
        requires { AllFree H.is_free helds.old }
        ensures { IsFoundDue H.is_free result helds.new }
    {
        let mut guard = self.lock.lock(rt);
        let laid = &mut *guard;
        laid.take_first(helds)
    }

    /// Lays down the chip of a worker that has not begun.
    pub(crate) fn lay_waiting<R: Wait>(&self, rt: &R, helds: &mut H, chip: u8)
        requires { AllFree H.is_free helds.old }
        ensures { AllFree H.is_free helds.new }
    {
        let mut guard = self.lock.lock(rt);
        let laid = &mut *guard;
        laid.lay_waiting(helds, chip);
    }

    /// Takes the chip of this number, if its worker has not begun.
    pub(crate) fn take_waiting<R: Wait>(&self, rt: &R, helds: &mut H, chip: u8) -> bool
        requires { AllFree H.is_free helds.old }
        ensures { AllFree H.is_free helds.new }
    {
        let mut guard = self.lock.lock(rt);
        let laid = &mut *guard;
        laid.take_waiting(helds, chip)
    }

    /// Takes the chip of this number, under the lock, if it lies here and work of it is due; answers whether it did.
    fn take_due<R: Wait>(&self, rt: &R, helds: &mut H, chip: u8) -> bool
        requires { AllFree H.is_free helds.old }
        ensures found { result ≡ true → FreeBut H.is_free chip helds.new }
        ensures none { result ≡ false → AllFree H.is_free helds.new }
    {
        let mut guard = self.lock.lock(rt);
        let laid = &mut *guard;
        laid.take_due(helds, chip)
    }

    /// Signals all helpers that no more work comes, where the work of no held chip is worth offloading.
    pub(crate) fn close_without<R: Wait>(&self, rt: &R, helds: &H) {
        if helds.worth_offloading() == 0 {
            self.close(rt);
        }
    }

    /// Signals all helpers that the run has ended.
    pub(crate) fn end<R: Wait>(&self, rt: &R) {
        self.ended.store(true, Ordering::SeqCst);
        self.close(rt);
    }

    /// A helper is done with this queue.
    pub(crate) fn leave(&self) {
        self.left.fetch_add(1, Ordering::SeqCst);
    }

    /// Signals all helpers that no more work comes.
    fn close<R: Wait>(&self, rt: &R) {
        let mut guard = self.lock.lock(rt);
        let laid = &mut *guard;
        laid.close();
        self.changes.fetch_add(1, Ordering::SeqCst);
        self.work.notify_all();
    }
}

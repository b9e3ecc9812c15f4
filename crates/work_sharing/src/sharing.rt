ghost use Rattle.work_sharing.specs.Dues.{AllFree};

use crate::{Holder, Led, Turns, WorkQueue};
use std::mem::replace;
use std::sync::Wait;
use std::thread;
use std::thread::{Scope, Threads};

/// Takes one turn of a worker's chip, unless another thread has taken that chip.
fn begin<G: Sync, H: Holder, T: Turns<G, H>, R: Wait>(
    rt: &R,
    turns: &T,
    work_queue: &WorkQueue<H>,
    gate: &G,
    worker: u8,
)
    requires { T.ready }
{
    let mut one = H::none();
    begin_with(rt, turns, work_queue, gate, &mut one, worker);
}

/// The same with a holder in which no work is due.
fn begin_with<G: Sync, H: Holder, T: Turns<G, H>, R: Wait>(
    rt: &R,
    turns: &T,
    work_queue: &WorkQueue<H>,
    gate: &G,
    one: &mut H,
    worker: u8,
)
    requires free { AllFree H.is_free one.old }
    requires ready { T.ready }
{
    if work_queue.take_waiting(rt, one, worker) {
        turns.take_turn(rt, one, gate);
        work_queue.lay_done(rt, one, worker);
    }
}

/// Does the work of a helper: one turn of its chip with its private work, unless the leader has reached that chip
/// before, then private work of any chip, and jobs where none is due.
fn help<G: Sync, H: Holder, T: Turns<G, H>, R: Wait>(
    rt: &R,
    turns: &T,
    work_queue: &WorkQueue<H>,
    gate: &G,
    worker: u8,
)
    requires { T.ready }
{
    begin(rt, turns, work_queue, gate, worker);
    work_queue.help::<G, T, R>(rt, turns);
    work_queue.leave();
}

/// Starts a thread for the helper of this number.
fn start<'s, E, G: Sync, H: Holder + Send, T: Turns<G, H> + Sync, R: Threads + Wait + Sync>(
    scope: &'s Scope<'s, E>,
    rt: &'s R,
    turns: &'s T,
    work_queue: &'s WorkQueue<H>,
    gate: &'s G,
    worker: u8,
)
    requires { T.ready }
{
    let job = move || -> ()
        requires { T.ready }
    {
        help(rt, turns, work_queue, gate, worker);
    };
    match scope.spawn(job) {
        Ok(child) => drop(child),
        Err(back) => {
            drop(back);
            work_queue.leave();
        }
    }
}

/// Starts a thread for each helper below this number.
fn start_below<'s, E, G: Sync, H: Holder + Send, T: Turns<G, H> + Sync, R: Threads + Wait + Sync>(
    scope: &'s Scope<'s, E>,
    rt: &'s R,
    turns: &'s T,
    work_queue: &'s WorkQueue<H>,
    gate: &'s G,
    last: u8,
)
    requires { T.ready }
{
    for worker in 0..last {
        start(scope, rt, turns, work_queue, gate, worker);
    }
}

/// Starts a thread for each helper: that of the greatest number, which starts the others before its own work, so
/// that whoever calls pays for one start. Where the system refuses that thread, the caller starts the others.
fn start_all<'s, E, G: Sync, H: Holder + Send, T: Turns<G, H> + Sync, R: Threads + Wait + Sync>(
    scope: &'s Scope<'s, E>,
    rt: &'s R,
    turns: &'s T,
    work_queue: &'s WorkQueue<H>,
    gate: &'s G,
    helpers: u8,
)
    requires { T.ready }
{
    if helpers == 0 {
        return;
    }
    let last = helpers - 1;
    let job = move || -> ()
        requires { T.ready }
    {
        start_below(scope, rt, turns, work_queue, gate, last);
        help(rt, turns, work_queue, gate, last);
    };
    match scope.spawn(job) {
        Ok(child) => drop(child),
        Err(back) => {
            drop(back);
            work_queue.leave();
            start_below(scope, rt, turns, work_queue, gate, last);
        }
    }
}

/// Lays the chips of the helpers below this number in the work queue.
fn lay_all<H: Holder, R: Wait>(rt: &R, work_queue: &WorkQueue<H>, helds: &mut H, helpers: u8)
    requires { AllFree H.is_free helds.old }
    ensures { AllFree H.is_free helds.new }
{
    for worker in 0..helpers {
        work_queue.lay_waiting(rt, helds, worker);
    }
}

/// Takes the turns of all chips, of which others come to the work queue, until all are held and none has a turn
/// before the run's end. Private work that is worth offloading goes to the work queue.
fn take_turns<G: Sync, H: Holder, T: Turns<G, H>, R: Wait>(
    rt: &R,
    turns: &T,
    work_queue: &WorkQueue<H>,
    gate: &G,
    helds: &mut H,
)
    requires free { AllFree H.is_free helds.old }
    requires ready { T.ready }
    ensures free { AllFree H.is_free helds.new }
    ensures held { H.all_held helds.new }
{
    // A worker waits for a bound in the first turn of its chip alone, which it then lays in the work queue.
    let mut met = false;
    for _ in rt.forever() {
        if !met && helds.missing().is_none() {
            met = true;
            work_queue.close_without(rt, helds);
        }
        match turns.lead(rt, helds, gate, !met) {
            Led::WorthOffloading(chip) => work_queue.lay_due(rt, helds, chip),
            Led::Away(chip) => work_queue.fetch(rt, helds, chip),
            Led::Ended => match helds.missing() {
                Some(chip) => work_queue.fetch(rt, helds, chip),
                None => return,
            },
        }
    }
    unreachable!()
}

/// The same, and then signals to the helpers in the work queue that the run has ended, and sees them off.
fn take_all_turns<G: Sync, H: Holder, T: Turns<G, H>, R: Wait>(
    rt: &R,
    turns: &T,
    work_queue: &WorkQueue<H>,
    gate: &G,
    helds: &mut H,
    helpers: u8,
)
    requires free { AllFree H.is_free helds.old }
    requires ready { T.ready }
    ensures free { AllFree H.is_free helds.new }
    ensures held { H.all_held helds.new }
{
    take_turns(rt, turns, work_queue, gate, helds);
    work_queue.end(rt);
    work_queue.see_off(helpers);
}

/// Takes the turns of all chips, some of which lie in the work queue, with so many helpers.
fn share_over<'s, G: Sync, H: Holder + Send, T: Turns<G, H> + Sync, R: Threads + Wait + Sync>(
    rt: &'s R,
    turns: &'s T,
    work_queue: &'s WorkQueue<H>,
    gate: &'s G,
    all: H,
    helpers: u8,
) -> H
    requires free { AllFree H.is_free all }
    requires ready { T.ready }
    ensures free { AllFree H.is_free result }
    ensures held { H.all_held result }
{
    thread::scope(
        thread::scope_env(),
        rt,
        move |scope| -> H
            requires { T.ready × AllFree H.is_free all }
            ensures { AllFree H.is_free result × H.all_held result }
        {
            start_all(scope, rt, turns, work_queue, gate, helpers);
            let mut rest = all;
            take_all_turns(rt, turns, work_queue, gate, &mut rest, helpers);
            rest
        },
    )
}

/// Takes the turns of all chips, which are held, with so many helpers. The caller is the leader.
///
/// Each helper is a thread of its own that begins with the chip of its number, which lies in the work queue until
/// then, as the caller does with the rest. A chip that has the next turn before its thread has begun is taken from
/// the work queue, so that nobody waits for a thread to start. So is that of a thread that the system refuses. Once
/// a thread has taken its chip's next turn, the leader takes that chip's turns too. The thread then helps it with
/// private work that is worth offloading, and runs the speculative jobs that chips queue.
pub fn share<G: Sync, H: Holder + Send, T: Turns<G, H> + Sync, R: Threads + Wait + Sync>(
    rt: &R,
    turns: &T,
    helds: &mut H,
    helpers: u8,
    gate: &G,
)
    requires free { AllFree H.is_free helds.old }
    requires ready { T.ready }
    ensures free { AllFree H.is_free helds.new }
    ensures held { H.all_held helds.new }
{
    let work_queue = WorkQueue::new(helds.worth_offloading());
    lay_all(rt, &work_queue, helds, helpers);
    let all = replace(helds, H::none());
    *helds = share_over(rt, turns, &work_queue, gate, all, helpers);
}

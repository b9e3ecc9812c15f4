ghost use Rattle.work_sharing.specs.Dues.{AllFree, IsLed};

use crate::{Holder, Led};
use std::sync::Wait;

/// The turns of a run's chips, as its threads take them, and the speculative jobs that its chips queue.
///
/// `G` is what a thread passes before a turn, and `H` holds chips for it.
pub trait Turns<G, H: Holder> {
    /// What each turn asks of the run.
    ghost ready: { Type 0 };

    /// Takes the turns of the held chips as far as they go. `reports`: whether threads may wait for what a turn
    /// changes.
    fn lead<R: Wait>(&self, rt: &R, helds: &mut H, gate: &G, reports: bool) -> Led
        requires ready { ready }
        requires free { AllFree H.is_free helds.old }
        ensures { IsLed H.is_free result helds.new };

    /// Takes one whole turn of a held chip, unless none has one before the run's end.
    fn take_turn<R: Wait>(&self, rt: &R, helds: &mut H, gate: &G)
        requires ready { ready }
        requires free { AllFree H.is_free helds.old }
        ensures { AllFree H.is_free helds.new };

    /// Whether any chip queues jobs.
    fn has_jobs(&self) -> bool;

    /// Whether a job is queued that nobody has begun.
    fn has_job(&self) -> bool;

    /// Runs a job, if one is queued that nobody has begun.
    fn run_job<R: Wait>(&self, rt: &R);
}

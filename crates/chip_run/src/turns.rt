ghost use Rattle.std.specs.Prelude.{◌≡◌};

use crate::{Bus, Helds, Named};
use chip_core::ChipSet;
use md_outer::Gate;
use std::sync::Wait;
use work_sharing::{Led, Turns};

impl<C: ChipSet, N: Named, G: Gate> Turns<G, Helds<C, N>> for Bus<C, N> {
    ghost ready = { (N.L0.parts ≡ 1) × (N.L1.parts ≡ 1) × (N.L2.parts ≡ 1) × (N.L3.parts ≡ 1) × (N.L4.parts ≡ 1) };

    fn lead<R: Wait>(&self, rt: &R, helds: &mut Helds<C, N>, gate: &G, reports: bool) -> Led {
        helds.pass_all(self.end, gate);
        self.turns(rt, helds, reports)
    }

    fn take_turn<R: Wait>(&self, rt: &R, helds: &mut Helds<C, N>, gate: &G) {
        self.wait_turn(rt, helds, gate);
    }

    fn has_jobs(&self) -> bool {
        self.jobs.is_some()
    }

    fn has_job(&self) -> bool {
        match &self.jobs {
            Some(jobs) => C::has_job(jobs),
            None => false,
        }
    }

    fn run_job<R: Wait>(&self, rt: &R) {
        if let Some(jobs) = &self.jobs {
            C::run_job(rt, jobs);
        }
    }
}

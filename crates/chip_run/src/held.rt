ghost use Rattle.std.specs.Prelude.{◌≡◌, ◌+◌, ◌-◌, ◌^◌, if◌then◌else◌, min, nat_lt};
ghost use Rattle.chip_run.specs.Held.{HeldValue, IsAhead, IsHeld};
ghost use Rattle.chip_run.specs.Rounds.{Settles, bare};

use crate::{Named, Passage};
use chip_core::{ChipSet, run};
use md_word::Key;
use std::marker::{Model, PhantomData};
use std::sync::ledger::{Ledger, Share};

/// The private work of a held chip that is still to be done.
#[derive(Drop)]
pub enum Due<P> {
    Nothing,
    /// What follows an access.
    Advance,
    /// A sample of these pins, and further ones before the end of the lease, as long as no access comes.
    Sample { pins: P, end: Key },
}

/// A chip that a worker holds, with the whole share of its ledger, whose amount is the number of the
/// chip's counted moves since the run began. With it come the number of samples that it made beyond these
/// under its lease, and the number of passes made for it.
#[derive(Drop)]
pub struct Held<C: ChipSet, N: Named, L: Ledger> {
    pub(crate) number: u8,
    pub(crate) chip: C::Chip,
    pub(crate) due: Due<C::Pins>,
    pub(crate) share: Share<L>,
    pub(crate) ahead: u64,
    pub(crate) passes: u64,
    pub(crate) run: PhantomData<N>,
}

impl<C: ChipSet, N: Named, L: Ledger> Model for Held<C, N, L> {
    ghost Value = { HeldValue C.Chip C.Pins };

    ghost view = { λ h. record {
      number = h.number;
      chip = h.chip;
      due = h.due;
      amount = h.share.amount + h.ahead;
      passes = h.passes;
    } };

    ghost invariant = { λ h. (h.share.parts ≡ 1) × IsHeld C.rules C.chip_ok C.shared_ok (C.core_of N.base) N.end (record {
      number = h.number;
      chip = h.chip;
      due = h.due;
      amount = h.share.amount + h.ahead;
      passes = h.passes;
    }) × IsAhead C.rules C.chip_ok C.shared_ok (C.core_of N.base) N.end h.number h.due h.share.amount h.ahead };
}

impl<C: ChipSet, N: Named, L: Ledger> Held<C, N, L> {
    /// Does the private work that is due, outside the lock. A chip that samples continues with the pins that
    /// were read, up to the end of its lease; its next section counts these samples.
    pub(crate) fn settle(&mut self)
        ensures { Settles C.rules self.old.due self.old self.new }
    {
        match &self.due {
            Due::Nothing => return,
            Due::Advance => {
                C::advance(&mut self.chip);
                self.due = Due::Nothing;
                return;
            }
            Due::Sample { pins, end } => {
                self.ahead = run::<C>(&mut self.chip, pins, end) - 1;
                self.due = Due::Nothing;
                return;
            }
        }
    }

    /// Passes the gate for the chip where it is not finished, with the number of earlier passes,
    /// which stays at its greatest value.
    pub(crate) fn pass<G: Passage>(&mut self, end: u64, gate: &G)
        ensures same { bare self.new ≡ bare self.old }
        ensures passes { self.new.passes ≡ (if nat_lt (C.rules.next self.old.chip).key.cycle end then min (self.old.passes + 1) (2 ^ 64 - 1) else self.old.passes) }
    {
        if C::next(&self.chip).key.cycle < end {
            gate.let_pass(self.number, self.passes);
            self.passes = self.passes.saturating_add(1);
        }
    }
}

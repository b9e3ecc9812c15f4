ghost use Rattle.std.specs.Prelude.{ℕ, ◌<◌, ◌≤◌, IsSome};
ghost use Rattle.chip_run.specs.Places.{is_idle, place};

use crate::{Held, Helds, Named};
use chip_core::ChipSet;
use std::sync::ledger::Ledger;
use work_sharing::Holder;

fn worth_offloading_in<C: ChipSet, N: Named, L: Ledger>(held: &Option<Held<C, N, L>>) -> u8
    ensures { result ≤ 1 }
{
    if let Some(held) = held
        && C::is_worth_offloading(&held.chip)
    {
        return 1;
    }
    0
}

impl<C: ChipSet, N: Named> Holder for Helds<C, N> {
    ghost is_free = { λ i helds. is_idle (place helds i) };

    ghost all_held = { λ helds. (i : ℕ) → i < C.rules.count → IsSome (place helds i) };

    fn count() -> u8 {
        C::count()
    }

    fn none() -> Self {
        Helds {
            place0: None,
            place1: None,
            place2: None,
            place3: None,
            place4: None,
        }
    }

    fn has(&self, chip: u8) -> bool {
        Helds::has(self, chip)
    }

    fn missing(&self) -> Option<u8> {
        for chip in 0..C::count() {
            if !Helds::has(self, chip) {
                return Some(chip);
            }
        }
        None
    }

    fn worth_offloading(&self) -> u8 {
        worth_offloading_in(&self.place0)
            + worth_offloading_in(&self.place1)
            + worth_offloading_in(&self.place2)
            + worth_offloading_in(&self.place3)
            + worth_offloading_in(&self.place4)
    }

    fn move_free(&mut self, other: &mut Self, chip: u8) {
        self.move_to(other, chip);
    }

    fn give_due(&mut self, other: &mut Self, chip: u8) {
        self.move_to(other, chip);
    }

    fn take_due(&mut self, other: &mut Self, chip: u8) {
        self.move_to(other, chip);
    }

    fn settle(&mut self, chip: u8) {
        self.settle_chip(chip);
    }
}

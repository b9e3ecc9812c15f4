ghost use Rattle.std.specs.Option.{option_map};
ghost use Rattle.std.specs.Prelude.{◌≡◌, ℕ, ◌↔◌, IsTrue, IsSome, IfSome, List, [], ◌∷◌, Option, None, length, slice_set};
ghost use Rattle.chip_run.specs.Held.{HeldValue, IsHeld};
ghost use Rattle.chip_run.specs.Places.{AreOnPaths, HasNumber, place};
ghost use Rattle.chip_run.specs.Rounds.{SettlesAt, bare, bares};

use crate::{Held, Named, Passage};
use chip_core::ChipSet;
use md_word::Key;
use std::marker::Model;
use std::sync::ledger::Ledger;

/// The chips of one run that one worker holds, at most one per number.
///
/// A chip whose work is done is where as many moves of its own as its share counts lead in the
/// base's run.
#[derive(Drop)]
pub struct Helds<C: ChipSet, N: Named> {
    pub(crate) place0: Option<Held<C, N, N::L0>>,
    pub(crate) place1: Option<Held<C, N, N::L1>>,
    pub(crate) place2: Option<Held<C, N, N::L2>>,
    pub(crate) place3: Option<Held<C, N, N::L3>>,
    pub(crate) place4: Option<Held<C, N, N::L4>>,
}

impl<C: ChipSet, N: Named> Model for Helds<C, N> {
    ghost Value = { List (Option (HeldValue C.Chip C.Pins)) };

    ghost view = { λ h. h.place0 ∷ h.place1 ∷ h.place2 ∷ h.place3 ∷ h.place4 ∷ [] };

    ghost invariant = { λ h. HasNumber 0 h.place0 × HasNumber 1 h.place1 × HasNumber 2 h.place2 × HasNumber 3 h.place3 × HasNumber 4 h.place4 };
}

impl<C: ChipSet, N: Named> Helds<C, N> {
    /// How many places there are.
    pub(crate) fn place_count(&self) -> u8
        ensures value { result ≡ 5 }
        ensures length { length self.now ≡ result }
    {
        let _first = &self.place0;
        5
    }

    /// Whether the chip of this number is held.
    pub fn has(&self, chip: u8) -> bool
        ensures { IsTrue result ↔ IsSome (place self.now chip) }
    {
        match chip {
            0 => self.place0.is_some(),
            1 => self.place1.is_some(),
            2 => self.place2.is_some(),
            3 => self.place3.is_some(),
            4 => self.place4.is_some(),
            _ => false,
        }
    }

    /// Moves the chip of this number to the same place of another holder.
    pub(crate) fn move_to(&mut self, other: &mut Self, chip: u8)
        ensures left { self.new ≡ slice_set self.old chip None }
        ensures moved { other.new ≡ slice_set other.old chip (place self.old chip) }
    {
        match chip {
            0 => move_place(&mut self.place0, &mut other.place0),
            1 => move_place(&mut self.place1, &mut other.place1),
            2 => move_place(&mut self.place2, &mut other.place2),
            3 => move_place(&mut self.place3, &mut other.place3),
            4 => move_place(&mut self.place4, &mut other.place4),
            _ => {}
        }
    }

    /// Where the held chips are.
    pub(crate) fn known(&self)
        ensures { AreOnPaths C.rules (C.core_of N.base) N.end self.now }
    {
        know_place(&self.place0);
        know_place(&self.place1);
        know_place(&self.place2);
        know_place(&self.place3);
        know_place(&self.place4);
    }

    /// The key of the next event of the chip of this number, if it is held.
    pub(crate) fn key(&self, chip: u8) -> Option<Key>
        ensures { result ≡ option_map (λ h. (C.rules.next h.chip).key) (place self.now chip) }
    {
        match chip {
            0 => key_of(&self.place0),
            1 => key_of(&self.place1),
            2 => key_of(&self.place2),
            3 => key_of(&self.place3),
            4 => key_of(&self.place4),
            _ => None,
        }
    }

    /// Does the private work that is due for the chip of this number.
    pub(crate) fn settle_chip(&mut self, chip: u8)
        ensures settled { SettlesAt C.rules (place self.old chip) (place self.new chip) }
        ensures others { self.new ≡ slice_set self.old chip (place self.new chip) }
    {
        match chip {
            0 => settle_place(&mut self.place0),
            1 => settle_place(&mut self.place1),
            2 => settle_place(&mut self.place2),
            3 => settle_place(&mut self.place3),
            4 => settle_place(&mut self.place4),
            _ => {}
        }
    }

    /// Passes the gate for each held chip that is not finished.
    pub(crate) fn pass_all<G: Passage>(&mut self, end: u64, gate: &G)
        ensures { bares self.new ≡ bares self.old }
    {
        pass_place(&mut self.place0, end, gate);
        pass_place(&mut self.place1, end, gate);
        pass_place(&mut self.place2, end, gate);
        pass_place(&mut self.place3, end, gate);
        pass_place(&mut self.place4, end, gate);
    }
}

fn know_place<C: ChipSet, N: Named, L: Ledger>(held: &Option<Held<C, N, L>>)
    ensures { IfSome held.now (λ h. IsHeld C.rules C.chip_ok C.shared_ok (C.core_of N.base) N.end h) }
{
    match held {
        Some(held) => {
            let _number = &held.number;
        }
        None => {}
    }
}

fn key_of<C: ChipSet, N: Named, L: Ledger>(held: &Option<Held<C, N, L>>) -> Option<Key>
    ensures { result ≡ option_map (λ h. (C.rules.next h.chip).key) held.now }
{
    match held {
        Some(held) => Some(C::next(&held.chip).key),
        None => None,
    }
}

fn move_place<C: ChipSet, N: Named, L: Ledger>(
    from: &mut Option<Held<C, N, L>>,
    to: &mut Option<Held<C, N, L>>,
)
    ensures left { from.new ≡ None }
    ensures moved { to.new ≡ from.old }
{
    *to = from.take();
}

fn settle_place<C: ChipSet, N: Named, L: Ledger>(held: &mut Option<Held<C, N, L>>)
    ensures settled { SettlesAt C.rules held.old held.new }
    ensures number { (n : ℕ) → HasNumber n held.old → HasNumber n held.new }
{
    match held {
        Some(held) => held.settle(),
        None => {}
    }
}

fn pass_place<C: ChipSet, N: Named, L: Ledger, G: Passage>(
    held: &mut Option<Held<C, N, L>>,
    end: u64,
    gate: &G,
)
    ensures same { option_map bare held.new ≡ option_map bare held.old }
    ensures number { (n : ℕ) → HasNumber n held.old → HasNumber n held.new }
{
    match held {
        Some(held) => held.pass(end, gate),
        None => {}
    }
}

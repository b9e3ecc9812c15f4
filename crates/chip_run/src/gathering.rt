ghost use Rattle.std.specs.Prelude.{◌≡◌, ℕ, ◌+◌, ◌<◌, ◌≤◌, IfSome, IsSome, Option, vec_capacity, length};
ghost use Rattle.chip_core.specs.Cores.{machine_of};
ghost use Rattle.chip_core.specs.Machines.{IsRunTo, Machine, OnPath};
ghost use Rattle.chip_run.specs.Gathering.{AreBooked, Gathered, booked_at};
ghost use Rattle.chip_run.specs.Places.{AllFree, HasNumber, place};
ghost use Rattle.chip_run.specs.Rounds.{IsEnded, IsEndedAt};

use crate::sections::section_on;
use crate::{Bus, Due, Held, Helds, Locked, Named, Parts};
use chip_core::{ChipSet, Core};
use std::sync::ledger::{Book, Ledger};

/// Puts the chip of this number after those of lower numbers.
fn put_chip<C: ChipSet, N: Named, L: Ledger>(
    chips: &mut Vec<C::Chip>,
    book: &Book<L>,
    held: Option<Held<C, N, L>>,
    number: u8,
)
    requires number { HasNumber number held }
    requires free { IfSome held (λ h. h.due ≡ Due.Nothing) }
    requires ended { IfSome held (λ h. N.end ≤ (C.rules.next h.chip).key.cycle) }
    requires there { number < C.rules.count → IsSome held }
    requires room { number < C.rules.count → length chips.old.items < vec_capacity chips.old }
    requires booked { IfSome held (λ h. h.amount ≡ book.now.total) }
    ensures gathered { (m : Machine C.Chip C.Shared)
        → (number < C.rules.count → OnPath C.rules (machine_of C.rules (C.core_of N.base)) N.end number book.now.total (m.chip number))
        → Gathered C.rules m N.end number chips.old.items → Gathered C.rules m N.end (number + 1) chips.new.items }
    ensures capacity { vec_capacity chips.new ≡ vec_capacity chips.old }
{
    match held {
        Some(held) => {
            let Held {
                number: _,
                chip,
                due: _,
                share: _,
                ahead: _,
                passes: _,
                run: _,
            } = held;
            let _book = book;
            chips.push_reserved(chip);
        }
        None => {}
    }
}

/// Counts all moves of the held chip of this number, if it is held, which is finished: a section on it.
fn book_one<C: ChipSet, N: Named>(locked: &mut Locked<C, N>, helds: &mut Helds<C, N>, chip: u8)
    requires free { AllFree helds.old }
    requires ended { IsEndedAt C.rules N.end helds.old chip }
    requires whole { (N.L0.parts ≡ 1) × (N.L1.parts ≡ 1) × (N.L2.parts ≡ 1) × (N.L3.parts ≡ 1) × (N.L4.parts ≡ 1) }
    ensures same { helds.new ≡ helds.old }
    ensures counts { locked.new.counts ≡ booked_at (place helds.old chip) chip locked.old.counts }
    ensures five { (length locked.old.counts ≡ 5) × (length locked.new.counts ≡ 5) }
{
    let _end = locked.end();
    if helds.has(chip) {
        section_on(locked, helds, chip);
        let _after = locked.end();
    }
}

/// Counts all moves of the held chips, which are finished.
fn book_all<C: ChipSet, N: Named>(locked: &mut Locked<C, N>, helds: &mut Helds<C, N>)
    requires free { AllFree helds.old }
    requires ended { IsEnded C.rules N.end helds.old }
    requires whole { (N.L0.parts ≡ 1) × (N.L1.parts ≡ 1) × (N.L2.parts ≡ 1) × (N.L3.parts ≡ 1) × (N.L4.parts ≡ 1) }
    ensures same { helds.new ≡ helds.old }
    ensures booked { AreBooked locked.new.counts helds.old }
{
    for chip in 0..helds.place_count() {
        book_one(locked, helds, chip);
    }
}

/// The core after the run, from all its chips once they are finished: all events below the run's
/// end and no other have been made, and the journal has their accesses and the room that it had.
pub fn gather<C: ChipSet, N: Named>(bus: Bus<C, N>, helds: Helds<C, N>) -> Core<C>
    requires held { (i : ℕ) → i < C.rules.count → IsSome (place helds i) }
    requires free { AllFree helds }
    requires ended { IsEnded C.rules N.end helds }
    requires whole { (N.L0.parts ≡ 1) × (N.L1.parts ≡ 1) × (N.L2.parts ≡ 1) × (N.L3.parts ≡ 1) × (N.L4.parts ≡ 1) }
    ensures run { IsRunTo C.rules (machine_of C.rules (C.core_of N.base)) N.end (machine_of C.rules result) result.journal }
    ensures room { result.room ≡ N.room }
{
    let mut locked = bus.into_locked();
    let mut helds = helds;
    book_all(&mut locked, &mut helds);
    let Locked {
        parts,
        emptied,
        book0,
        book1,
        book2,
        book3,
        book4,
        run: _,
    } = locked;
    let Parts {
        end: _,
        shared,
        bounds,
        journal,
    } = parts;
    let Helds {
        place0,
        place1,
        place2,
        place3,
        place4,
    } = helds;
    let mut chips = emptied;
    put_chip(&mut chips, &book0, place0, 0);
    put_chip(&mut chips, &book1, place1, 1);
    put_chip(&mut chips, &book2, place2, 2);
    put_chip(&mut chips, &book3, place3, 3);
    put_chip(&mut chips, &book4, place4, 4);
    Core::make(shared, chips, bounds, journal)
}

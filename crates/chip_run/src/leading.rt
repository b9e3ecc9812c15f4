ghost use Rattle.std.specs.Prelude.{◌≡◌, IfSome};
ghost use Rattle.chip_run.specs.Leads.{IsLed, IsTurned, IsTurnedPlace};
ghost use Rattle.chip_run.specs.Places.{AllFree, HasNumber};
ghost use Rattle.chip_run.specs.Sections.{IsLockedAt, KeepsLocked};
ghost use Rattle.chip_run.specs.Steps.{IsLeastBound};

use crate::sections::step_held;
use crate::whole::turn_held;
use crate::{Due, Held, Helds, Locked, Named, Parts, Turn};
use chip_core::ChipSet;
use std::sync::Wait;
use std::sync::ledger::{Book, Ledger};
use work_sharing::Led;

/// What became of the turn of the chip of least bound.
#[derive(Clone, Copy)]
pub(crate) enum Turned {
    /// It was taken.
    Taken,
    /// It was taken, but for the private work, which is worth offloading.
    WorthOffloading,
    /// The chip is not held.
    Away,
}

/// The turn of the chip in a place, if one is held there.
#[inline(always)]
fn turn_place<C: ChipSet, N: Named, L: Ledger>(
    parts: &mut Parts<C>,
    book: &mut Book<L>,
    place: &mut Option<Held<C, N, L>>,
    number: u8,
) -> Turned
    requires number { HasNumber number place.old }
    requires free { IfSome place.old (λ h. h.due ≡ Due.Nothing) }
    requires whole { L.parts ≡ 1 }
    requires locked { IsLockedAt C.rules C.chip_ok C.shared_ok (C.core_of N.base) N.end parts.old number book.old.total }
    requires least { IsLeastBound parts.old number }
    ensures locked { KeepsLocked C.rules C.chip_ok C.shared_ok (C.core_of N.base) N.end number parts.old book.old.total parts.new book.new.total }
    ensures room { parts.new.room ≡ parts.old.room }
    ensures number { HasNumber number place.new }
    ensures free { IsTurnedPlace result place.new }
{
    let Some(held) = place else {
        return Turned::Away;
    };
    if !C::is_worth_offloading(&held.chip) {
        turn_held(parts, book, held, number);
        return Turned::Taken;
    }
    match step_held(parts, book, held, number) {
        Turn::Moved => return Turned::WorthOffloading,
        Turn::Blocked { other: _, bound: _ } => return Turned::Taken,
        Turn::Finished => return Turned::Taken,
    }
}

/// The turn of the chip of this number, which has the least bound.
fn turn_on<C: ChipSet, N: Named>(
    locked: &mut Locked<C, N>,
    helds: &mut Helds<C, N>,
    chip: u8,
) -> Turned
    requires free { AllFree helds.old }
    requires least { IsLeastBound locked.old.parts chip }
    requires whole { (N.L0.parts ≡ 1) × (N.L1.parts ≡ 1) × (N.L2.parts ≡ 1) × (N.L3.parts ≡ 1) × (N.L4.parts ≡ 1) }
    ensures { IsTurned chip result helds.new }
{
    match chip {
        0 => turn_place(&mut locked.parts, &mut locked.book0, &mut helds.place0, 0),
        1 => turn_place(&mut locked.parts, &mut locked.book1, &mut helds.place1, 1),
        2 => turn_place(&mut locked.parts, &mut locked.book2, &mut helds.place2, 2),
        3 => turn_place(&mut locked.parts, &mut locked.book3, &mut helds.place3, 3),
        4 => turn_place(&mut locked.parts, &mut locked.book4, &mut helds.place4, 4),
        _ => Turned::Away,
    }
}

/// Takes the turns of the held chips, always that of least bound. It stops once one has made its event whose
/// private work is worth offloading, where a chip that is not held has the least bound, or where no bound lies
/// below the run's end.
pub(crate) fn lead<C: ChipSet, N: Named, R: Wait>(
    rt: &R,
    locked: &mut Locked<C, N>,
    helds: &mut Helds<C, N>,
) -> Led
    requires free { AllFree helds.old }
    requires whole { (N.L0.parts ≡ 1) × (N.L1.parts ≡ 1) × (N.L2.parts ≡ 1) × (N.L3.parts ≡ 1) × (N.L4.parts ≡ 1) }
    ensures { IsLed result helds.new }
{
    for _ in rt.forever() {
        let Some(chip) = locked.first() else {
            return Led::Ended;
        };
        match turn_on(locked, helds, chip) {
            Turned::Taken => {}
            Turned::WorthOffloading => return Led::WorthOffloading(chip),
            Turned::Away => return Led::Away(chip),
        }
    }
    unreachable!()
}

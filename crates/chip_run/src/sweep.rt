ghost use Rattle.std.specs.Prelude.{◌≡◌, ◌≢◌, ◌⊎◌, ℕ, IfSome, IsSome, Some, true, false};
ghost use Rattle.md_word.specs.Keys.{key_lt};
ghost use Rattle.chip_run.specs.Places.{AllFree, IsFree};
ghost use Rattle.chip_run.specs.Rounds.{AreUnchanged, IsChanged, IsNoted, IsSeenTurn, IsSwept, KeepsOthers};

use crate::sections::section_on;
use crate::{Helds, Locked, Named, Turn};
use chip_core::ChipSet;
use md_word::Key;

/// The answer of a sweep.
#[derive(Clone, Copy)]
pub(crate) enum Swept {
    /// The chip of this number made its event, but for its private work.
    Moved(u8),
    /// None did, and of those that are not finished the one of least key waits for this chip.
    Blocked { other: u8 },
    /// All are finished.
    Finished,
}

/// A blocked chip's key, and the chip that it waits for.
#[derive(Clone, Copy)]
struct Waiting {
    key: Key,
    other: u8,
}

/// The one of lesser key.
fn lesser(found: Option<Waiting>, next: Waiting) -> Waiting
    ensures one { (result ≡ next) ⊎ (found ≡ Some result) }
    ensures next { key_lt next.key result.key ≡ false }
    ensures found { IfSome found (λ first. key_lt first.key result.key ≡ false) }
{
    match found {
        Some(first) => if next.key.is_below(&first.key) {
            next
        } else {
            first
        },
        None => next,
    }
}

/// Notes whether a bound changed.
fn note(changed: &mut bool, before: Option<Key>, after: Option<Key>)
    ensures same { changed.new ≡ false → (changed.old ≡ false) × (after ≡ before) }
    ensures differs { changed.new ≡ true → (changed.old ≡ true) ⊎ (after ≢ before) }
{
    if after != before {
        *changed = true;
    }
}

/// A section, of which the held chips and the bounds alone are seen.
pub(crate) fn turn_of<C: ChipSet, N: Named>(
    locked: &mut Locked<C, N>,
    helds: &mut Helds<C, N>,
    chip: u8,
) -> Turn
    requires held { IsFree helds.old chip }
    requires whole { (N.L0.parts ≡ 1) × (N.L1.parts ≡ 1) × (N.L2.parts ≡ 1) × (N.L3.parts ≡ 1) × (N.L4.parts ≡ 1) }
    ensures turn { IsSeenTurn C.rules N.end chip helds.old result helds.new }
    ensures bounds { KeepsOthers chip locked.old.parts.bounds locked.new.parts.bounds }
{
    let _end = locked.end();
    section_on(locked, helds, chip)
}

/// A section, and whether its chip's bound changed.
fn visit<C: ChipSet, N: Named>(
    locked: &mut Locked<C, N>,
    helds: &mut Helds<C, N>,
    changed: &mut bool,
    chip: u8,
) -> Turn
    requires held { IsFree helds.old chip }
    requires whole { (N.L0.parts ≡ 1) × (N.L1.parts ≡ 1) × (N.L2.parts ≡ 1) × (N.L3.parts ≡ 1) × (N.L4.parts ≡ 1) }
    ensures turn { IsSeenTurn C.rules N.end chip helds.old result helds.new }
    ensures noted { IsNoted chip changed.old locked.old.parts.bounds changed.new locked.new.parts.bounds }
{
    let before = locked.bound(chip);
    let turn = turn_of(locked, helds, chip);
    note(changed, before, locked.bound(chip));
    turn
}

/// Takes sections on all held chips, in the order of their numbers, until one moves.
///
/// `changed` becomes true exactly where a bound changed.
fn sweep<C: ChipSet, N: Named>(
    locked: &mut Locked<C, N>,
    helds: &mut Helds<C, N>,
    changed: &mut bool,
) -> Swept
    requires free { AllFree helds.old }
    requires whole { (N.L0.parts ≡ 1) × (N.L1.parts ≡ 1) × (N.L2.parts ≡ 1) × (N.L3.parts ≡ 1) × (N.L4.parts ≡ 1) }
    ensures swept { IsSwept C.rules N.end helds.old result helds.new }
    ensures unchanged { changed.new ≡ false → (changed.old ≡ false) × AreUnchanged locked.old.parts.bounds locked.new.parts.bounds }
    ensures changed { changed.new ≡ true → (changed.old ≡ true) ⊎ IsChanged locked.old.parts.bounds locked.new.parts.bounds }
{
    let mut waiting = None;
    for chip in 0..helds.place_count() {
        match helds.key(chip) {
            Some(key) => {
                match visit(locked, helds, changed, chip) {
                    Turn::Moved => return Swept::Moved(chip),
                    Turn::Blocked { other, bound: _ } => waiting = Some(lesser(
                        waiting,
                        Waiting { key, other },
                    )),
                    Turn::Finished => {}
                }
            }
            None => {}
        }
    }
    match waiting {
        Some(least) => return Swept::Blocked { other: least.other },
        None => return Swept::Finished,
    }
}

/// A sweep, and where no chip moved once more, since every chip has then announced its event.
pub(crate) fn look<C: ChipSet, N: Named>(
    locked: &mut Locked<C, N>,
    helds: &mut Helds<C, N>,
    changed: &mut bool,
) -> Swept
    requires free { AllFree helds.old }
    requires whole { (N.L0.parts ≡ 1) × (N.L1.parts ≡ 1) × (N.L2.parts ≡ 1) × (N.L3.parts ≡ 1) × (N.L4.parts ≡ 1) }
    ensures swept { IsSwept C.rules N.end helds.old result helds.new }
    ensures unchanged { changed.new ≡ false → (changed.old ≡ false) × AreUnchanged locked.old.parts.bounds locked.new.parts.bounds }
{
    match sweep(locked, helds, changed) {
        Swept::Moved(chip) => return Swept::Moved(chip),
        Swept::Blocked { other: _ } => return sweep(locked, helds, changed),
        Swept::Finished => return sweep(locked, helds, changed),
    }
}

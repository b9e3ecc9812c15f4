//! Laws of the bus lock, as calls: `section` does what it says, and `standing` does nothing and
//! stands for what it ensures.

ghost use Rattle.std.specs.Prelude.{◌≡◌, ℕ, ◌↔◌};
ghost use Rattle.md_word.specs.declared.key.Key.{Key};
ghost use Rattle.chip_run.specs.declared.turn.Turn.{Turn};
ghost use Rattle.chip_run.specs.CoreSteps.{IsCoreSection};
ghost use Rattle.chip_run.specs.Locked.{IsLocked};
ghost use Rattle.chip_run.specs.Places.{IsFree};
ghost use Rattle.chip_run.specs.Sections.{HasTurnAt, IsBlockedAt, IsFinishedAt, IsSection};

use crate::sections::section_on;
use crate::{Helds, Locked, Named, Turn};
use chip_core::ChipSet;

/// What one section of a round does, on a held chip of which no work is due: the chip announces its
/// next event, and makes it where it has its turn. After `Moved` its private work is due.
///
/// With the due work done, that is the core's announcement of the chip where it is enabled, and then
/// the chip's own event where that is enabled.
pub fn section<C: ChipSet, N: Named>(
    locked: &mut Locked<C, N>,
    helds: &mut Helds<C, N>,
    chip: u8,
) -> Turn
    requires held { IsFree helds.old chip }
    requires whole { (N.L0.parts ≡ 1) × (N.L1.parts ≡ 1) × (N.L2.parts ≡ 1) × (N.L3.parts ≡ 1) × (N.L4.parts ≡ 1) }
    ensures moved { (result ≡ Turn.Moved) ↔ HasTurnAt C.rules chip locked.old helds.old }
    ensures blocked { (other : ℕ) (bound : Key) → result ≡ Turn.Blocked other bound → IsBlockedAt C.rules chip locked.old helds.old other bound }
    ensures finished { (result ≡ Turn.Finished) ↔ IsFinishedAt C.rules chip locked.old helds.old }
    ensures section { IsSection C.rules chip locked.old helds.old result locked.new helds.new }
    ensures core { IsCoreSection C.rules chip locked.old helds.old locked.new helds.new }
{
    section_on(locked, helds, chip)
}

/// Whenever the lock is free, what lies behind it is, with the chips that the event counts lead to,
/// a core that stands for the run's base.
pub fn standing<C: ChipSet, N: Named>(locked: &Locked<C, N>)
    ensures { IsLocked C.rules C.chip_ok C.shared_ok (C.core_of N.base) N.end locked.now.parts locked.now.counts }
{
    let _parts = &locked.parts;
}

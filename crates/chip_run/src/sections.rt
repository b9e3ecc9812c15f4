ghost use Rattle.std.specs.Prelude.{◌≡◌};
ghost use Rattle.chip_run.specs.Places.{IsFree};
ghost use Rattle.chip_run.specs.Sections.{IsFound, IsLockedAt, IsSection, IsTurn, KeepsLocked};

use crate::stepped::Stepped;
use crate::{Due, Held, Helds, Locked, Named, Parts, Turn};
use chip_core::ChipSet;
use std::sync::ledger::{Book, Ledger};

/// A section on a held chip: its ledger counts the samples that it made under its lease, and then the
/// locked part of its turn.
pub(crate) fn step_held<C: ChipSet, N: Named, L: Ledger>(
    parts: &mut Parts<C>,
    book: &mut Book<L>,
    held: &mut Held<C, N, L>,
    number: u8,
) -> Turn
    requires number { held.old.number ≡ number }
    requires free { held.old.due ≡ Due.Nothing }
    requires whole { L.parts ≡ 1 }
    requires locked { IsLockedAt C.rules C.chip_ok C.shared_ok (C.core_of N.base) N.end parts.old number book.old.total }
    ensures locked { KeepsLocked C.rules C.chip_ok C.shared_ok (C.core_of N.base) N.end number parts.old book.old.total parts.new book.new.total }
    ensures total { book.new.total ≡ held.new.amount }
    ensures found { IsFound C.rules number parts.old held.old book.old.total }
    ensures turn { IsTurn C.rules number parts.old held.old result parts.new held.new }
{
    book.audit(&mut held.share);
    book.add(&mut held.share, held.ahead);
    held.ahead = 0;
    match parts.step(&mut held.chip, number) {
        Stepped::Performed => {
            book.add(&mut held.share, 1);
            held.due = Due::Advance;
            return Turn::Moved;
        }
        Stepped::Sampled { pins, end } => {
            book.add(&mut held.share, 1);
            held.due = Due::Sample { pins, end };
            return Turn::Moved;
        }
        Stepped::Blocked { other, bound } => return Turn::Blocked { other, bound },
        Stepped::Finished => return Turn::Finished,
    }
}

/// The work of one section under the lock, on a held chip of which no work is due.
pub(crate) fn section_on<C: ChipSet, N: Named>(
    locked: &mut Locked<C, N>,
    helds: &mut Helds<C, N>,
    chip: u8,
) -> Turn
    requires held { IsFree helds.old chip }
    requires whole { (N.L0.parts ≡ 1) × (N.L1.parts ≡ 1) × (N.L2.parts ≡ 1) × (N.L3.parts ≡ 1) × (N.L4.parts ≡ 1) }
    ensures { IsSection C.rules chip locked.old helds.old result locked.new helds.new }
{
    match chip {
        0 => {
            let Some(held) = &mut helds.place0 else {
                unreachable!()
            };
            step_held(&mut locked.parts, &mut locked.book0, held, 0)
        }
        1 => {
            let Some(held) = &mut helds.place1 else {
                unreachable!()
            };
            step_held(&mut locked.parts, &mut locked.book1, held, 1)
        }
        2 => {
            let Some(held) = &mut helds.place2 else {
                unreachable!()
            };
            step_held(&mut locked.parts, &mut locked.book2, held, 2)
        }
        3 => {
            let Some(held) = &mut helds.place3 else {
                unreachable!()
            };
            step_held(&mut locked.parts, &mut locked.book3, held, 3)
        }
        4 => {
            let Some(held) = &mut helds.place4 else {
                unreachable!()
            };
            step_held(&mut locked.parts, &mut locked.book4, held, 4)
        }
        _ => unreachable!(),
    }
}

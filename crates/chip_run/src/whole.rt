ghost use Rattle.std.specs.Prelude.{◌≡◌};
ghost use Rattle.chip_run.specs.Sections.{IsLockedAt, KeepsLocked};
ghost use Rattle.chip_run.specs.Steps.{IsLeastBound};

use crate::{Due, Held, Named, Parts};
use chip_core::{ChipSet, run};
use std::sync::ledger::{Book, Ledger};

/// The access of a held chip with its private work, where it has its turn with one.
#[inline(always)]
fn access_held<C: ChipSet, N: Named, L: Ledger>(
    parts: &mut Parts<C>,
    book: &mut Book<L>,
    held: &mut Held<C, N, L>,
    number: u8,
)
    requires number { held.old.number ≡ number }
    requires free { held.old.due ≡ Due.Nothing }
    requires whole { L.parts ≡ 1 }
    requires locked { IsLockedAt C.rules C.chip_ok C.shared_ok (C.core_of N.base) N.end parts.old number book.old.total }
    requires least { IsLeastBound parts.old number }
    ensures locked { KeepsLocked C.rules C.chip_ok C.shared_ok (C.core_of N.base) N.end number parts.old book.old.total parts.new book.new.total }
    ensures room { parts.new.room ≡ parts.old.room }
    ensures number { held.new.number ≡ number }
    ensures free { held.new.due ≡ Due.Nothing }
{
    if C::next(&held.chip).sample {
        return;
    }
    book.audit(&mut held.share);
    book.add(&mut held.share, held.ahead);
    held.ahead = 0;
    if parts.access(&mut held.chip, number) {
        book.add(&mut held.share, 1);
    }
}

/// The samples of a held chip up to the end of its lease, where its next event is one before it; answers
/// whether it was.
#[inline(always)]
fn sample_held<C: ChipSet, N: Named, L: Ledger>(
    parts: &mut Parts<C>,
    book: &mut Book<L>,
    held: &mut Held<C, N, L>,
    number: u8,
) -> bool
    requires number { held.old.number ≡ number }
    requires free { held.old.due ≡ Due.Nothing }
    requires whole { L.parts ≡ 1 }
    requires locked { IsLockedAt C.rules C.chip_ok C.shared_ok (C.core_of N.base) N.end parts.old number book.old.total }
    ensures locked { KeepsLocked C.rules C.chip_ok C.shared_ok (C.core_of N.base) N.end number parts.old book.old.total parts.new book.new.total }
    ensures room { parts.new.room ≡ parts.old.room }
    ensures number { held.new.number ≡ number }
    ensures free { held.new.due ≡ Due.Nothing }
{
    book.audit(&mut held.share);
    book.add(&mut held.share, held.ahead);
    held.ahead = 0;
    let Some(end) = parts.lease(&held.chip, number) else {
        return false;
    };
    book.add(&mut held.share, 1);
    let pins = parts.pins(number);
    held.ahead = run::<C>(&mut held.chip, &pins, &end) - 1;
    true
}

/// Announces a held chip, whose ledger counts the samples that it made under its lease.
#[inline(always)]
fn announce_held<C: ChipSet, N: Named, L: Ledger>(
    parts: &mut Parts<C>,
    book: &mut Book<L>,
    held: &mut Held<C, N, L>,
    number: u8,
)
    requires number { held.old.number ≡ number }
    requires free { held.old.due ≡ Due.Nothing }
    requires whole { L.parts ≡ 1 }
    requires locked { IsLockedAt C.rules C.chip_ok C.shared_ok (C.core_of N.base) N.end parts.old number book.old.total }
    ensures locked { KeepsLocked C.rules C.chip_ok C.shared_ok (C.core_of N.base) N.end number parts.old book.old.total parts.new book.new.total }
    ensures room { parts.new.room ≡ parts.old.room }
    ensures number { held.new.number ≡ number }
    ensures free { held.new.due ≡ Due.Nothing }
{
    book.audit(&mut held.share);
    book.add(&mut held.share, held.ahead);
    held.ahead = 0;
    parts.announce(&held.chip, number);
}

/// The whole turn of a held chip: its access, the samples up to the end of its lease, and the next
/// announcement.
#[inline(always)]
pub(crate) fn turn_held<C: ChipSet, N: Named, L: Ledger>(
    parts: &mut Parts<C>,
    book: &mut Book<L>,
    held: &mut Held<C, N, L>,
    number: u8,
)
    requires number { held.old.number ≡ number }
    requires free { held.old.due ≡ Due.Nothing }
    requires whole { L.parts ≡ 1 }
    requires locked { IsLockedAt C.rules C.chip_ok C.shared_ok (C.core_of N.base) N.end parts.old number book.old.total }
    requires least { IsLeastBound parts.old number }
    ensures locked { KeepsLocked C.rules C.chip_ok C.shared_ok (C.core_of N.base) N.end number parts.old book.old.total parts.new book.new.total }
    ensures room { parts.new.room ≡ parts.old.room }
    ensures number { held.new.number ≡ number }
    ensures free { held.new.due ≡ Due.Nothing }
{
    access_held(parts, book, held, number);
    // to look for a lease has announced the chip; after samples it is announced again
    if sample_held(parts, book, held, number) {
        announce_held(parts, book, held, number);
    }
}

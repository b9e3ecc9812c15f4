ghost use Rattle.std.specs.Prelude.{◌≡◌, false};
ghost use Rattle.bus_shared.specs.Board.{IsBoard};
ghost use Rattle.chip_core.specs.Chips.{LeavesPins};
ghost use Rattle.md_chips.specs.Pins as shown;
ghost use Rattle.md_chips.specs.Rules.{IsChip, five};

use md_word::{Entry, Pins68, Pins80};

/// The input pins of one chip.
#[derive(Clone, Copy, Drop)]
pub enum Pins {
    /// Of the 68000; the other chips but the Z80 do not look at theirs.
    Main(Pins68),
    /// Of the Z80.
    Sub(Pins80),
}

/// What the Z80's pins are taken for where there are none.
const NONE: Pins80 = Pins80 {
    request: false,
    reset: false,
    resets: 0,
    int_from: 0,
    int_to: 0,
};

impl Pins {
    /// The pins of the 68000; where they are the Z80's, none is asked for.
    pub(crate) fn main(&self) -> Pins68
        ensures { result.level ≡ shown.level_in self.now }
    {
        match self {
            Pins::Main(pins) => *pins,
            Pins::Sub(_) => Pins68 { level: 0 },
        }
    }

    /// The pins of the Z80; where they are the 68000's, all is 0.
    #[inline(always)]
    pub(crate) fn sub(&self) -> &Pins80
        ensures { result.now ≡ shown.sub_in self.now }
    {
        match self {
            Pins::Sub(pins) => pins,
            Pins::Main(_) => &NONE,
        }
    }
}

/// Whether an access, by its entry, may have changed the Z80's pins: one of the 68000 at the Z80's bus request
/// or its reset, or a line.
#[inline(always)]
pub(crate) fn may_move_pins(entry: &Entry) -> bool
    ensures { result ≡ shown.may_move_pins entry.now }
{
    if entry.key.chip == 0 {
        return entry.address >= 0xa1_1100 && entry.address <= 0xa1_1201;
    }
    entry.key.chip == 2
}

/// Whether an access of another chip, by its entry, may have changed the pins of the chip of this number: only the
/// Z80's are looked at.
#[inline(always)]
pub(crate) fn may_wake(entry: &Entry, number: u8) -> bool
    ensures { result ≡ false → LeavesPins five IsChip IsBoard entry.now number }
{
    if number != 1 {
        return true;
    }
    may_move_pins(entry)
}

//! The pins that the board shows the processors.
ghost use Rattle.std.specs.Prelude.{◌≡◌};
ghost use Rattle.bus_shared.specs.Accesses as accesses;

use crate::shared::Shared;
use md_word::{Pins68, Pins80};

/// The interrupt pins of the 68000.
pub fn pins68(shared: &Shared) -> Pins68
    ensures { result ≡ accesses.main_pins shared.now }
{
    Pins68 {
        level: shared.vdp.level(),
    }
}

/// The pins of the Z80: its bus request, its reset, and the interval of its latest interrupt.
pub fn pins80(shared: &Shared) -> Pins80
    ensures { result ≡ accesses.sub_pins shared.now }
{
    shared.known();
    Pins80 {
        request: shared.request,
        reset: shared.reset,
        resets: shared.resets,
        int_from: shared.vdp.int_from,
        int_to: shared.vdp.int_to,
    }
}

//! A law of the pictures, the contract of a call that does nothing.

ghost use Rattle.vdp_chip.specs.Frames.{IsItsScanlines};

use crate::ChipVdp;

/// The events of 225 lines, on PAL 241, from line 0 on leave a frame. It is exactly the scanlines of all
/// lines but the last, each drawn from what its own event found.
pub fn frame_is_its_scanlines(chip: &ChipVdp)
    ensures { IsItsScanlines chip.now }
{
    let _next = chip.next();
}

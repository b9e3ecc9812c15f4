ghost use Rattle.std.specs.Prelude.{◌≡◌, ◌<◌, IfSome, length, option_copied};
ghost use Rattle.md_word.specs.Region.{picture_length};
ghost use Rattle.md_chips.specs.Refinement.{renderer_of};
ghost use Rattle.chip_core.specs.Cores.{IsCore};
ghost use Rattle.bus_shared.specs.Board.{IsBoard};
ghost use Rattle.md_chips.specs.Drained as drained;
ghost use Rattle.md_chips.specs.Drained.{with_emptied};
ghost use Rattle.md_chips.specs.Rules.{IsChip, five};

use crate::chips::Chip;
use crate::set::MdChips;
use chip_core::Core;

/// The frame that a chip keeps: another chip than the drawing half of the VDP has none.
pub fn frame_in(chip: &Chip) -> Option<&[u8]>
    ensures value { option_copied result ≡ drained.frame_of chip.now }
    ensures size { IfSome (option_copied result) (λ picture. length picture ≡ picture_length (renderer_of chip.now).chip.pal) }
{
    match chip {
        Chip::Renderer(renderer) => renderer.frame(),
        Chip::Main(_) | Chip::Sub(_) | Chip::Fm(_) | Chip::Psg(_) => None,
    }
}

/// The sums that a chip keeps: another chip than the FM synthesis has none.
pub fn sides_in(chip: &Chip) -> &[(i32, i32)]
    ensures { result.now ≡ drained.sides_of chip.now }
{
    match chip {
        Chip::Fm(fm) => fm.samples(),
        Chip::Main(_) | Chip::Sub(_) | Chip::Renderer(_) | Chip::Psg(_) => &[],
    }
}

/// The levels that a chip keeps: another chip than the PSG has none.
pub fn levels_in(chip: &Chip) -> &[i32]
    ensures { result.now ≡ drained.levels_of chip.now }
{
    match chip {
        Chip::Psg(psg) => psg.samples(),
        Chip::Main(_) | Chip::Sub(_) | Chip::Renderer(_) | Chip::Fm(_) => &[],
    }
}

/// Drops the frame or the samples that the chip of a number keeps.
pub fn empty_chip(core: &mut Core<MdChips>, number: usize)
    requires { number < 5 }
    ensures value { core.new ≡ with_emptied core.old number }
    ensures core { IsCore five IsChip IsBoard core.new }
{
    core.chips();
    core.change(number, empty);
    core.chips();
}

/// Drops the frame or the samples that a chip keeps.
fn empty(chip: &mut Chip)
    ensures { chip.new ≡ drained.emptied chip.old }
{
    match chip {
        Chip::Fm(fm) => fm.drain(),
        Chip::Psg(psg) => psg.drain(),
        Chip::Renderer(renderer) => renderer.drop_frame(),
        Chip::Main(_) | Chip::Sub(_) => {}
    }
}

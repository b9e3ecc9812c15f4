ghost use Rattle.std.specs.Prelude.{◌≡◌};
ghost use Rattle.md_chips.specs.Refinement.{renderer_of, fm_of, main_of, psg_of, sub_of};
ghost use Rattle.md_chips.specs.Rules.{next};

use crate::chips::Chip;
use fm_chip::FmSynth;
use m68k_chip::Chip68;
use psg_sound::PsgSynth;
use vdp_chip::ChipVdp;
use z80_chip::Chip80;

/// The 68000, of the chip whose number is 0.
#[tactic(auto, unfolding(m68k_chip::specs::States::next_of, z80_chip::specs::States::next_of))]
pub fn main_in(chip: &Chip) -> &Chip68
    requires { (next chip.now).key.chip ≡ 0 }
    ensures { result.now ≡ (main_of chip.now).chip }
{
    match chip {
        Chip::Main(main) => main.chip(),
        Chip::Sub(_) | Chip::Renderer(_) | Chip::Fm(_) | Chip::Psg(_) => unreachable!(),
    }
}

/// The Z80, of the chip whose number is 1.
#[tactic(auto, unfolding(m68k_chip::specs::States::next_of, z80_chip::specs::States::next_of))]
pub fn sub_in(chip: &Chip) -> &Chip80
    requires { (next chip.now).key.chip ≡ 1 }
    ensures { result.now ≡ (sub_of chip.now).chip }
{
    match chip {
        Chip::Sub(sub) => &sub.chip,
        Chip::Main(_) | Chip::Renderer(_) | Chip::Fm(_) | Chip::Psg(_) => unreachable!(),
    }
}

/// The drawing half of the VDP, of the chip whose number is 2.
#[tactic(auto, unfolding(m68k_chip::specs::States::next_of, z80_chip::specs::States::next_of))]
pub fn renderer_in(chip: &Chip) -> &ChipVdp
    requires { (next chip.now).key.chip ≡ 2 }
    ensures { result.now ≡ (renderer_of chip.now).chip }
{
    match chip {
        Chip::Renderer(renderer) => renderer.chip(),
        Chip::Main(_) | Chip::Sub(_) | Chip::Fm(_) | Chip::Psg(_) => unreachable!(),
    }
}

/// The FM synthesis, of the chip whose number is 3.
#[tactic(auto, unfolding(m68k_chip::specs::States::next_of, z80_chip::specs::States::next_of))]
pub fn fm_in(chip: &Chip) -> &FmSynth
    requires { (next chip.now).key.chip ≡ 3 }
    ensures { result.now ≡ (fm_of chip.now).synth }
{
    match chip {
        Chip::Fm(fm) => fm.synth(),
        Chip::Main(_) | Chip::Sub(_) | Chip::Renderer(_) | Chip::Psg(_) => unreachable!(),
    }
}

/// The PSG's synthesis, of the chip whose number is 4.
#[tactic(auto, unfolding(m68k_chip::specs::States::next_of, z80_chip::specs::States::next_of))]
pub fn psg_in(chip: &Chip) -> &PsgSynth
    requires { (next chip.now).key.chip ≡ 4 }
    ensures { result.now ≡ (psg_of chip.now).synth }
{
    match chip {
        Chip::Psg(psg) => psg.synth(),
        Chip::Main(_) | Chip::Sub(_) | Chip::Renderer(_) | Chip::Fm(_) => unreachable!(),
    }
}

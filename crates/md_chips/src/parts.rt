ghost use Rattle.std.specs.Prelude.{◌≡◌, ◌≤◌, ◌<◌, ℕ, [], IfOk, length, true};
ghost use Rattle.md_word.specs.Clock.{last_cycle};
ghost use Rattle.chip_core.specs.Cores.{chip_in, key_in};
ghost use Rattle.md_chips.specs.Assembled as assembly;
ghost use Rattle.md_chips.specs.Rules.{IsChip, five};
ghost use Rattle.md_chips.specs.Starts.{first_batch as batch_from};

use crate::chips::Chip;
use crate::chips::fm::FmChip;
use crate::chips::main::MainChip;
use crate::chips::psg::PsgChip;
use crate::chips::renderer::RendererChip;
use crate::chips::sub::SubChip;
use crate::set::MdChips;
use chip_core::ChipSet;
use fm_chip::FmSynth;
use m68k_chip::Chip68;
use md_word::clock::BATCH;
use md_word::{Key, NoMemory};
use psg_sound::PsgSynth;
use std::alloc::Global;
use vdp_chip::ChipVdp;
use z80_chip::Chip80;

/// The chips that make no samples.
#[derive(Drop)]
struct SilentChips {
    main: MainChip,
    sub: SubChip,
    renderer: RendererChip,
}

/// The chips that make no samples, of these parts.
fn silent_chips(
    alloc: Global,
    main: Chip68,
    sub: Chip80,
    renderer: ChipVdp,
) -> Result<SilentChips, NoMemory>
    requires { renderer.has_view ≡ true }
    ensures { IfOk result (λ chips. chips ≡ record {
      main = record { chip = main; answer = None };
      sub = record { chip = sub; answer = None };
      renderer = record { chip = record renderer { frame = None }; view = None };
    }) }
{
    let main = MainChip::new(alloc, main)?;
    let renderer = RendererChip::new(alloc, renderer)?;
    let sub = SubChip {
        chip: sub,
        answer: None,
    };
    Ok(SilentChips {
        main,
        sub,
        renderer,
    })
}

/// The chips that make samples.
#[derive(Drop)]
struct SoundChips {
    fm: FmChip,
    psg: PsgChip,
}

/// The chips that make samples, of these parts; their next batch is at a cycle.
fn sound_chips(
    alloc: Global,
    fm: FmSynth,
    psg: PsgSynth,
    batch: u64,
) -> Result<SoundChips, NoMemory>
    ensures { IfOk result (λ chips. chips ≡ record {
      fm = record { synth = fm; cycle = batch; taken = []; samples = [] };
      psg = record { synth = psg; cycle = batch; taken = []; samples = [] };
    }) }
{
    let fm = FmChip::new(alloc, fm, batch)?;
    let psg = PsgChip::new(alloc, psg, batch)?;
    Ok(SoundChips { fm, psg })
}

/// The five chips of these parts. The only error is out of memory.
pub fn chips_of(
    alloc: Global,
    at: u64,
    main: Chip68,
    sub: Chip80,
    renderer: ChipVdp,
    fm: FmSynth,
    psg: PsgSynth,
) -> Result<Vec<Chip>, NoMemory>
    requires view { renderer.has_view ≡ true }
    requires far { at ≤ last_cycle }
    ensures { IfOk result (λ chips. chips.items ≡ assembly.chips_of (record { at = at; main = main; sub = sub; renderer = renderer; fm = fm; psg = psg })) }
{
    let silent = silent_chips(alloc, main, sub, renderer)?;
    let sound = sound_chips(alloc, fm, psg, first_batch(at))?;
    let chips = [
        Chip::Main(silent.main),
        Chip::Sub(silent.sub),
        Chip::Renderer(silent.renderer),
        Chip::Fm(sound.fm),
        Chip::Psg(sound.psg),
    ];
    Ok(Vec::from_array(alloc, chips)?)
}

/// The first batch of samples from a cycle on, which is not that at 0.
pub fn first_batch(at: u64) -> u64
    requires { at ≤ last_cycle }
    ensures { result ≡ batch_from at }
{
    BATCH * (at.saturating_sub(1) / BATCH + 1)
}

/// The bound of each chip: the key of its next event. The only error is out of memory.
pub fn bounds_of(alloc: Global, chips: &[Chip]) -> Result<Vec<Key>, NoMemory>
    requires { length chips.now ≡ 5 }
    ensures bounds { IfOk result (λ bounds. bounds.items ≡ assembly.bounds_of chips.now) }
    ensures valid { IfOk result (λ bounds. (i : ℕ) → i < 5 → IsChip (chip_in five chips.now i)) }
{
    let bounds = [
        key_at(chips, 0),
        key_at(chips, 1),
        key_at(chips, 2),
        key_at(chips, 3),
        key_at(chips, 4),
    ];
    Ok(Vec::from_array(alloc, bounds)?)
}

/// The key of the next event of a chip.
fn key_at(chips: &[Chip], number: usize) -> Key
    requires number { number < 5 }
    requires length { length chips.now ≡ 5 }
    ensures key { result ≡ key_in five chips.now number }
    ensures valid { IsChip (chip_in five chips.now number) }
{
    MdChips::next(&chips[number]).key
}

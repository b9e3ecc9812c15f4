ghost use Rattle.std.specs.Prelude.{◌≡◌, [], IfOk};
ghost use Rattle.std.specs.Arc.{arc_value};
ghost use Rattle.bus_shared.specs.Board.{power_on};
ghost use Rattle.md_chips.specs.First as first;

use crate::chips::Chip;
use crate::parts::chips_of;
use crate::set::MdChips;
use bus_shared::Shared;
use chip_core::Core;
use fm_chip::FmSynth;
use m68k_chip::Chip68;
use md_pads::Recording;
use md_word::clock::BATCH;
use md_word::{Key, NoMemory};
use psg_sound::PsgSynth;
use rom_header::Cart;
use std::alloc::Global;
use std::sync::Arc;
use vdp_chip::ChipVdp;
use z80_chip::Chip80;

/// The five chips at power-on, of a region.
fn first_chips(alloc: Global, cart: Arc<Cart>, pal: bool) -> Result<Vec<Chip>, NoMemory>
    ensures { IfOk result (λ chips. chips.items ≡ first.first_chips (arc_value cart) pal) }
{
    let sub = Chip80::power_on(alloc, cart.clone()?)?;
    let main = Chip68::power_on(alloc, cart)?;
    let renderer = ChipVdp::power_on(alloc, pal)?;
    let fm = FmSynth::power_on();
    let psg = PsgSynth::power_on();
    chips_of(alloc, 0, main, sub, renderer, fm, psg)
}

/// The bounds at power-on: each chip's key.
fn first_bounds(alloc: Global) -> Result<Vec<Key>, NoMemory>
    ensures { IfOk result (λ bounds. bounds.items ≡ first.first_bounds) }
{
    let bounds = [
        Key { cycle: 0, chip: 0 },
        Key { cycle: 0, chip: 1 },
        Key { cycle: 0, chip: 2 },
        Key {
            cycle: BATCH,
            chip: 3,
        },
        Key {
            cycle: BATCH,
            chip: 4,
        },
    ];
    Ok(Vec::from_array(alloc, bounds)?)
}

/// The core of the five chips at power-on, of a region, with this cartridge and this recording of the
/// pads: each bound is its chip's key, and the journal has room for so many entries. It fails
/// only when memory is out.
pub fn first_core(
    alloc: Global,
    cart: Arc<Cart>,
    recording: Arc<Recording>,
    pal: bool,
    room: usize,
) -> Result<Core<MdChips>, NoMemory>
    ensures { IfOk result (λ core. core ≡ record {
      shared = power_on (arc_value recording) pal;
      chips = first.first_chips (arc_value cart) pal;
      bounds = first.first_bounds;
      journal = [];
      room = room;
    }) }
{
    let shared = Shared::power_on(alloc, recording, pal)?;
    let chips = first_chips(alloc, cart, pal)?;
    let bounds = first_bounds(alloc)?;
    let journal = Vec::with_capacity(alloc, room)?;
    Ok(Core::make(shared, chips, bounds, journal))
}

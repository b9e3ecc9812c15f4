ghost use Rattle.std.specs.Prelude.{◌≡◌, ◌≤◌, [], IfOk, true};
ghost use Rattle.std.specs.Arc.{arc_value};
ghost use Rattle.md_word.specs.Clock.{last_cycle};
ghost use Rattle.m68k_chip.specs.States.{next_of};
ghost use Rattle.z80_chip.specs.States.{next_of as sub_next_of};
ghost use Rattle.md_chips.specs.Assembled as assembly;
ghost use Rattle.md_chips.specs.Console.{power_on};
ghost use Rattle.md_chips.specs.Media.{no_media};

use crate::machine::{Machine, most_entries};
use bus_shared::Shared;
use chip_core::Core;
use fm_chip::FmSynth;
use m68k_chip::Chip68;
use md_chips::{bounds_of, chips_of};
use md_pads::Recording;
use md_word::NoMemory;
use psg_sound::PsgSynth;
use rom_header::Cart;
use std::alloc::Global;
use std::sync::Arc;
use vdp_chip::ChipVdp;
use z80_chip::Chip80;

impl Machine {
    /// The machine at power-on, of a region, with this cartridge and this recording of the pads. All
    /// memory that it ever needs is taken here, but that in which lines are drawn ahead: the first segment of
    /// several workers asks for it before its first event, and the machine goes without where there is none. It
    /// fails only when memory is out.
    pub fn power_on(
        alloc: Global,
        cart: Arc<Cart>,
        recording: Arc<Recording>,
        pal: bool,
    ) -> Result<Machine, NoMemory>
        ensures { IfOk result (λ machine. machine ≡ record { at = 0; console = power_on (arc_value cart) (arc_value recording) pal; entries = []; media = no_media }) }
    {
        let shared = Shared::power_on(alloc, recording, pal)?;
        let sub = Chip80::power_on(alloc, cart.clone()?)?;
        let main = Chip68::power_on(alloc, cart)?;
        let renderer = ChipVdp::power_on(alloc, pal)?;
        let fm = FmSynth::power_on();
        let psg = PsgSynth::power_on();
        Machine::from_parts(alloc, 0, shared, main, sub, renderer, fm, psg)
    }

    /// The machine at a cycle that these parts make: chips without an answer that waits, the drawing
    /// half with its view, and the board of its region. Its batches of samples come next at the first multiple of
    /// 16,128 from `at` on, at 16,128 where `at` is 0. It holds no output: a finished frame is dropped,
    /// whose picture stays. Memory is taken as at power-on, and it fails only when memory is out.
    pub fn from_parts(
        alloc: Global,
        at: u64,
        shared: Shared,
        main: Chip68,
        sub: Chip80,
        renderer: ChipVdp,
        fm: FmSynth,
        psg: PsgSynth,
    ) -> Result<Machine, NoMemory>
        requires view { renderer.has_view ≡ true }
        requires region { renderer.pal ≡ shared.vdp.pal }
        requires main { at ≤ (next_of main.state).key.cycle }
        requires sub { at ≤ (sub_next_of sub.state).key.cycle }
        requires line { at ≤ renderer.next }
        requires far { at ≤ last_cycle }
        ensures { IfOk result (λ machine. machine ≡ record {
          at = at;
          console = assembly.assembled (record { at = at; main = main; sub = sub; renderer = renderer; fm = fm; psg = psg }) shared;
          entries = [];
          media = no_media;
        }) }
    {
        shared.known();
        let pal = renderer.pal();
        let chips = chips_of(alloc, at, main, sub, renderer, fm, psg)?;
        let bounds = bounds_of(alloc, chips.as_slice())?;
        let journal = Vec::with_capacity(alloc, most_entries(pal))?;
        let core = Core::make(shared, chips, bounds, journal);
        Ok(Machine {
            at,
            core: Some(core),
        })
    }
}

ghost use Rattle.std.specs.Prelude.{◌≡◌, ◌&&◌, cond, None};
ghost use Rattle.m68k_chip.specs.Cases.{begins_at, case_of};
ghost use Rattle.m68k_chip.specs.States.{next_of};
ghost use Rattle.bus_shared.specs.Accesses.{level_of};
ghost use Rattle.md_chips.specs.Console.{begins_in};

use crate::machine::Machine;
use bus_shared::{Shared, pins68};
use fm_chip::FmSynth;
use m68k_chip::Chip68;
use md_chips::{fm_in, main_in, psg_in, renderer_in, sub_in};
use psg_sound::PsgSynth;
use rom_header::Cart;
use vdp_chip::ChipVdp;
use z80_chip::Chip80;

impl Machine {
    /// The 68000.
    pub fn main_chip(&self) -> &Chip68
        ensures { result.now ≡ record { cart = self.now.console.cart; state = self.now.console.main } }
    {
        main_in(&self.core().chips()[0])
    }

    /// The Z80.
    pub fn sub_chip(&self) -> &Chip80
        ensures { result.now ≡ self.now.console.sub }
    {
        sub_in(&self.core().chips()[1])
    }

    /// The drawing half of the VDP.
    pub fn draw_chip(&self) -> &ChipVdp
        ensures next { result.now.next ≡ self.now.console.line }
        ensures note { result.now.note ≡ self.now.console.note }
        ensures picture { result.now.picture ≡ self.now.console.picture }
        ensures region { result.now.pal ≡ self.now.console.pal }
    {
        renderer_in(&self.core().chips()[2])
    }

    /// The FM synthesis.
    pub fn fm(&self) -> &FmSynth
        ensures { result.now ≡ self.now.console.fm }
    {
        fm_in(&self.core().chips()[3])
    }

    /// The PSG's synthesis.
    pub fn psg(&self) -> &PsgSynth
        ensures { result.now ≡ self.now.console.psg }
    {
        psg_in(&self.core().chips()[4])
    }

    /// What the chips share.
    pub fn shared(&self) -> &Shared
        ensures { result.now ≡ self.now.console.shared }
    {
        self.core().shared()
    }

    /// The cartridge.
    pub fn cart(&self) -> &Cart
        ensures { result.now ≡ self.now.console.cart }
    {
        self.main_chip().cart()
    }

    /// The address of the instruction that the next event begins; none where that event is no sample of the 68000,
    /// or begins no instruction.
    pub fn begins(&self) -> Option<u32>
        ensures { result ≡ begins_in self.now.console }
    {
        let is_first = self.first_key().chip == 0;
        begun(is_first, self.main_chip(), self.shared())
    }
}

/// The address of the instruction that the 68000 begins with its next event, where that is the next of
/// the machine and begins one.
fn begun(is_first: bool, main: &Chip68, shared: &Shared) -> Option<u32>
    ensures { result ≡ cond (is_first && (next_of main.now.state).sample) (begins_at (case_of main.now.state (level_of shared.now)) main.now.state.regs.pc) None }
{
    if is_first && main.next().sample {
        main.begins(pins68(shared))
    } else {
        None
    }
}

//! The pads on the board: the registers by which the 68000 reaches them, and the words of a recording.
//! Source: Genesis Technical Overview, the I/O area.
ghost use Rattle.std.specs.Prelude.{◌≡◌, ◌≤◌};
ghost use Rattle.md_word.specs.Clock.{cycle_limit};
ghost use Rattle.bus_shared.specs.Accesses as accesses;
ghost use Rattle.bus_shared.specs.Registers as registers;

use crate::register::Register;
use crate::shared::Shared;
use md_word::region::{finished_at, frame_cycles};

/// The version register: an overseas console of NTSC, or one of PAL, without an expansion unit.
const VERSION: u8 = 0xa0;

const PAL_VERSION: u8 = 0xe0;

/// What the data of the expansion port reads, to which nothing is connected.
const NO_EXPANSION: u8 = 0x7f;

impl Shared {
    #[tactic(auto, unfolding(crate::specs::Registers::register_read))]
    pub(crate) fn read_register(&self, cycle: u64, register: Register) -> u8
        ensures { result ≡ registers.register_read self.now cycle register }
    {
        match register {
            Register::Version => { if self.vdp.pal { PAL_VERSION } else { VERSION } }
            Register::Data1 => self.port1.read(cycle, self.recording.six(1), self.pads.0),
            Register::Data2 => self.port2.read(cycle, self.recording.six(2), self.pads.1),
            Register::DataExpansion => NO_EXPANSION,
            Register::Control1 => self.port1.control(),
            Register::Control2 => self.port2.control(),
            Register::Unused => 0,
        }
    }

    #[tactic(auto, unfolding(crate::specs::Registers::register_written))]
    pub(crate) fn write_register(&mut self, cycle: u64, register: Register, value: u8)
        requires { cycle ≤ cycle_limit }
        ensures { self.new ≡ registers.register_written self.old cycle register value }
    {
        match register {
            Register::Data1 => self.port1.write_value(cycle, value),
            Register::Data2 => self.port2.write_value(cycle, value),
            Register::Control1 => self.port1.write_control(cycle, value),
            Register::Control2 => self.port2.write_control(cycle, value),
            Register::Version | Register::DataExpansion | Register::Unused => {}
        }
    }

    /// Lets the pads take their words at the start of the line after the picture.
    #[tactic(auto, unfolding(crate::specs::Accesses::pads_board))]
    pub(crate) fn change_pads(&mut self, cycle: u64)
        ensures { self.new ≡ accesses.pads_board self.old cycle }
    {
        let frame = frame_cycles(self.vdp.pal);
        if cycle % frame == finished_at(self.vdp.pal) {
            self.pads = self.recording.pads_at(cycle / frame);
        }
    }
}

ghost use Rattle.std.specs.Prelude.{◌≤◌};

use arrayvec::ArrayVec;
use md_word::Key;

/// The port that stands for a reset of the chip.
pub const RESET: u8 = 2;

/// A byte written to a register of the FM chip, or its reset.
///
/// Source: Sega, Genesis Software Manual, FM addresses; a reset as a write of port 2 is this project's
/// profile.
#[derive(Clone, Copy)]
pub struct FmWrite {
    /// The cycle of the write, its stamp, and the chip that wrote: 0 the 68000, 1 the Z80.
    pub key: Key,
    /// The port of the register, 0 or 1; 2 is a reset.
    pub port: u8,
    pub register: u8,
    pub value: u8,
    pub ghost port_in_range: { port ≤ 2 },
}

/// Writes to the FM chip, at most 1,024.
pub type FmList = ArrayVec<FmWrite, 1024>;

impl Default for FmWrite {
    fn default() -> FmWrite {
        FmWrite {
            key: Key { cycle: 0, chip: 0 },
            port: 0,
            register: 0,
            value: 0,
        }
    }
}

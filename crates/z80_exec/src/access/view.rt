ghost use Rattle.std.specs.Prelude.{◌≡◌, []};

use arrayvec::ArrayVec;
use z80_parcel::RAM_SIZE;

/// What stays as it is while an instruction runs.
#[derive(Clone, Copy)]
pub struct Context<'a> {
    /// The cartridge's image.
    pub rom: &'a [u8],
    /// RAM before the instruction.
    pub ram: &'a [u8; RAM_SIZE],
    /// The bank register before the instruction.
    pub bank: u16,
    /// What the shared accesses of the instruction have answered so far, in their order.
    pub answers: &'a [u8],
}

/// What an instruction has done so far.
#[derive(Drop)]
pub struct Progress80 {
    /// How many of the answers it has taken.
    pub used: usize,
    /// The bytes that it has written into RAM and the bank register, the oldest first, each with the
    /// Z80's address: 0000h to 3FFFh, and 6000h to 60FFh.
    pub writes: ArrayVec<(u16, u8), 4>,
}

impl Progress80 {
    /// Of an instruction that has not begun.
    pub fn new() -> Self
        ensures used { result.used ≡ 0 }
        ensures nothing { result.writes.items ≡ [] }
    {
        Progress80 {
            used: 0,
            writes: ArrayVec::new(),
        }
    }

    /// Back to no answer taken, and nothing written.
    pub fn restart(&mut self)
        ensures used { self.new.used ≡ 0 }
        ensures nothing { self.new.writes.items ≡ [] }
    {
        self.used = 0;
        self.writes.clear();
    }
}

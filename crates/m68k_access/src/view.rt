ghost use Rattle.std.specs.Prelude.{◌≡◌, []};

use crate::memory::RAM_SIZE;
use arrayvec::ArrayVec;

/// What stays as it is while an instruction runs.
#[derive(Clone, Copy)]
pub struct Context<'a> {
    /// The cartridge's image.
    pub rom: &'a [u8],
    /// Work RAM before the instruction.
    pub ram: &'a [u8; RAM_SIZE],
    /// What the shared accesses of the instruction have answered so far, in their order.
    pub answers: &'a [u16],
}

/// What an instruction has done so far.
#[derive(Drop)]
pub struct Progress {
    /// How many of the answers it has taken.
    pub used: usize,
    /// The bytes that it has written into work RAM, the oldest first, each with its address on the
    /// bus, E00000h to FFFFFFh.
    pub writes: ArrayVec<(u32, u8), 80>,
}

impl Progress {
    /// Of an instruction that has not begun.
    pub fn new() -> Self
        ensures used { result.used ≡ 0 }
        ensures nothing { result.writes.items ≡ [] }
    {
        Progress {
            used: 0,
            writes: ArrayVec::new(),
        }
    }

    /// Back to so many answers taken, and nothing written.
    pub fn restart(&mut self, used: usize)
        ensures used { self.new.used ≡ used }
        ensures nothing { self.new.writes.items ≡ [] }
    {
        self.used = used;
        self.writes.clear();
    }
}

ghost use Rattle.std.specs.Prelude.{◌≡◌, false};

use crate::{Regs80, Waiting};
use z80_decode::InterruptMode;

/// What a sample of the Z80 results in, once its shared accesses are answered.
#[derive(Clone, Copy)]
pub struct Finish80 {
    /// The clocks that it took, 4 to 23: at least 4, and 3 for each shared access.
    pub t: u32,
    /// The processor is halted.
    pub halted: bool,
    /// The instruction was EI: an interrupt waits for the instruction after it.
    pub after_ei: bool,
}

/// How far a sample of the Z80 comes with the answers so far.
#[derive(Clone, Copy)]
pub enum Step80 {
    /// The next shared access, which waits for its answer.
    Need(Waiting),
    /// All are answered.
    Done(Finish80),
}

/// What follows a write that waits for its answer, where that is known: the write is the last
/// access of its instruction, no answer to it changes anything, and nothing private is written.
#[derive(Clone, Copy)]
pub struct Predicted80 {
    pub known: bool,
    /// The registers then.
    pub regs: Regs80,
    /// What the sample results in.
    pub finish: Finish80,
}

impl Predicted80 {
    /// Nothing is known.
    pub fn nothing() -> Self
        ensures { result.known ≡ false }
    {
        Predicted80 {
            known: false,
            regs: Regs80 {
                af: 0,
                bc: 0,
                de: 0,
                hl: 0,
                af2: 0,
                bc2: 0,
                de2: 0,
                hl2: 0,
                ix: 0,
                iy: 0,
                sp: 0,
                pc: 0,
                i: 0,
                r: 0,
                iff1: false,
                iff2: false,
                mode: InterruptMode::Mode0,
            },
            finish: Finish80 {
                t: 0,
                halted: false,
                after_ei: false,
            },
        }
    }
}

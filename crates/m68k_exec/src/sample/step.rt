ghost use Rattle.std.specs.Prelude.{◌≡◌, false};

use m68k_decode::Op;
use md_word::{Regs, Request68, Spent};

/// The outcome of a sample of the 68000, once its shared accesses are answered.
#[derive(Clone, Copy)]
pub struct Finish {
    /// The instruction at the program counter before it.
    pub op: Op,
    /// What its time depends on.
    pub spent: Spent,
    /// The processor is stopped.
    pub stopped: bool,
    /// The processor is halted.
    pub halted: bool,
    /// A trace is pending.
    pub trace: bool,
}

/// How far a sample of the 68000 comes with the answers so far.
#[derive(Clone, Copy)]
pub enum Step {
    /// The next shared access, which waits for its answer.
    Need(Request68),
    /// All are answered.
    Done(Finish),
}

/// How far an instruction comes at once, with the registers, the cartridge and work RAM alone.
#[derive(Clone, Copy)]
pub enum PrivateStep {
    /// The shared write that it waits for.
    Need(Request68),
    /// It ended, and took so many clocks.
    Done(u32),
}

/// What follows a write that waits for its answer, where that is known: the write is the last
/// access of its instruction, no answer to it changes anything, and no work RAM is written.
#[derive(Clone, Copy)]
pub struct Predicted {
    pub known: bool,
    /// The registers then.
    pub regs: Regs,
    /// The outcome of the sample.
    pub finish: Finish,
    /// The clocks that it takes.
    pub clocks: u32,
}

impl Predicted {
    /// Nothing is known.
    pub fn nothing() -> Self
        ensures { result.known ≡ false }
    {
        Predicted {
            known: false,
            regs: Regs {
                d: [0; 8],
                a: [0; 7],
                usp: 0,
                ssp: 0,
                pc: 0,
                sr: 0,
            },
            finish: Finish {
                op: Op::Nop,
                spent: Spent {
                    taken: false,
                    expired: false,
                    count: 0,
                    cause: 0,
                    accesses: 0,
                },
                stopped: false,
                halted: false,
                trace: false,
            },
            clocks: 0,
        }
    }
}

//! What holds of the numbers of every Z80: they fit the bytes that they take.
ghost use Rattle.std.specs.Prelude.{◌^◌, ◌<◌};

use crate::sequencer::Sequencer;
use z80_exec::Regs80;

/// A pair of registers has two bytes.
pub fn known_pairs(regs: &Regs80)
    ensures af { regs.now.af < 2 ^ 16 }
    ensures bc { regs.now.bc < 2 ^ 16 }
    ensures de { regs.now.de < 2 ^ 16 }
    ensures hl { regs.now.hl < 2 ^ 16 }
    ensures af2 { regs.now.af2 < 2 ^ 16 }
    ensures bc2 { regs.now.bc2 < 2 ^ 16 }
    ensures de2 { regs.now.de2 < 2 ^ 16 }
    ensures hl2 { regs.now.hl2 < 2 ^ 16 }
{
    let _af = regs.af;
    let _bc = regs.bc;
    let _de = regs.de;
    let _hl = regs.hl;
    let _af2 = regs.af2;
    let _bc2 = regs.bc2;
    let _de2 = regs.de2;
    let _hl2 = regs.hl2;
}

/// An index register, the stack pointer and the program counter have two bytes, I and R one.
pub fn known_pointers(regs: &Regs80)
    ensures ix { regs.now.ix < 2 ^ 16 }
    ensures iy { regs.now.iy < 2 ^ 16 }
    ensures sp { regs.now.sp < 2 ^ 16 }
    ensures pc { regs.now.pc < 2 ^ 16 }
    ensures i { regs.now.i < 2 ^ 8 }
    ensures r { regs.now.r < 2 ^ 8 }
{
    let _ix = regs.ix;
    let _iy = regs.iy;
    let _sp = regs.sp;
    let _pc = regs.pc;
    let _i = regs.i;
    let _r = regs.r;
}

/// A cycle and the count of resets have eight bytes.
pub fn known_counts(sequencer: &Sequencer)
    ensures next { sequencer.now.next < 2 ^ 64 }
    ensures resets { sequencer.now.resets < 2 ^ 64 }
{
    let _next = sequencer.next;
    let _resets = sequencer.resets;
}

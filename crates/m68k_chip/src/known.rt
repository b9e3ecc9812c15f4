//! What holds of the numbers of every 68000: they fit the bytes that they take.
ghost use Rattle.std.specs.Prelude.{◌^◌, ◌<◌, ℕ, slice_index};
ghost use Rattle.m68k_chip.specs.Numbers.{IsRegs};

use crate::sequencer::Sequencer;
use md_word::Regs;

/// Each long has four bytes.
fn known_longs(longs: &[u32])
    ensures { (k : ℕ) → slice_index longs.now k < 2 ^ 32 }
{
    let _longs = longs;
}

/// How many registers there are, and that each has four bytes, and the status register two.
pub fn known_regs(regs: &Regs)
    ensures sizes { IsRegs regs.now }
    ensures d { (k : ℕ) → slice_index regs.now.d k < 2 ^ 32 }
    ensures a { (k : ℕ) → slice_index regs.now.a k < 2 ^ 32 }
    ensures usp { regs.now.usp < 2 ^ 32 }
    ensures ssp { regs.now.ssp < 2 ^ 32 }
    ensures pc { regs.now.pc < 2 ^ 32 }
    ensures sr { regs.now.sr < 2 ^ 16 }
{
    known_longs(&regs.d);
    known_longs(&regs.a);
    let _d0 = regs.d[0];
    let _a0 = regs.a[0];
    let _usp = regs.usp;
    let _ssp = regs.ssp;
    let _pc = regs.pc;
    let _sr = regs.sr;
}

/// A cycle has eight bytes.
pub fn known_next(sequencer: &Sequencer)
    ensures { sequencer.now.next < 2 ^ 64 }
{
    let _next = sequencer.next;
}

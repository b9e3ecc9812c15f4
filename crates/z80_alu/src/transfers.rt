ghost use Rattle.std.specs.Prelude.{◌≡◌};
ghost use Rattle.z80_alu.specs.Transfers as transfers;

use crate::Flags80;
use crate::arithmetic::{shown, subtracted};

/// F after LD A,I and LD A,R, of the value that was loaded.
#[inline]
#[tactic(auto, unfolding(crate::specs::Transfers::special_loaded))]
pub fn special_loaded(value: u8, iff2: bool, f: u8) -> u8
    ensures { result ≡ transfers.special_loaded value iff2 f }
{
    shown(value, false, iff2, false, Flags80::of(f).c).f
}

/// F after a step of LDI, LDD, LDIR and LDDR that left this counter, BC.
#[inline]
#[tactic(auto, unfolding(crate::specs::Transfers::block_loaded))]
pub fn block_loaded(counter: u16, f: u8) -> u8
    ensures { result ≡ transfers.block_loaded counter f }
{
    let flags = Flags80 {
        h: false,
        pv: counter != 0,
        n: false,
        ..Flags80::of(f)
    };
    flags.byte()
}

/// F after a step of CPI, CPD, CPIR and CPDR that compared the accumulator with a byte and left this
/// counter, BC.
#[inline]
#[tactic(auto, unfolding(crate::specs::Transfers::block_compared))]
pub fn block_compared(a: u8, b: u8, counter: u16, f: u8) -> u8
    ensures { result ≡ transfers.block_compared a b counter f }
{
    let flags = Flags80 {
        pv: counter != 0,
        c: Flags80::of(f).c,
        ..Flags80::of(subtracted(a, b, false).f)
    };
    flags.byte()
}

/// F after a step of INI, OUTI and their kin that left this counter, B.
#[inline]
#[tactic(auto, unfolding(crate::specs::Transfers::block_passed))]
pub fn block_passed(counter: u8, f: u8) -> u8
    ensures { result ≡ transfers.block_passed counter f }
{
    let flags = Flags80 {
        z: counter == 0,
        n: true,
        ..Flags80::of(f)
    };
    flags.byte()
}

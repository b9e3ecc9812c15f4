ghost use Rattle.std.specs.Prelude.{◌≡◌, ◌%◌, ◌==◌, count_ones, ◌≢◌};
ghost use Rattle.z80_alu.specs.Flags as flags;
ghost use Rattle.z80_alu.specs.Logic as logic;

use crate::arithmetic::shown;
use crate::out80::reported;
use crate::{Bit, Flags80, Out80};

/// Whether the number of ones is even.
#[inline(always)]
pub fn parity(value: u8) -> bool
    ensures { result ≡ flags.parity value }
{
    value.count_ones() % 2 == 0
}

/// AND, OR and XOR, of their value and H.
#[tactic(auto, unfolding(crate::specs::Logic::logical))]
pub fn logical(value: u8, h: bool) -> Out80
    ensures { result ≡ logic.logical value h }
{
    shown(value, h, parity(value), false, false)
}

/// IN r,(C)
#[tactic(auto, unfolding(crate::specs::Logic::read_in))]
pub fn read_in(value: u8, flags: Flags80) -> Out80
    ensures { result ≡ logic.read_in value flags }
{
    shown(value, false, parity(value), false, flags.c)
}

/// CPL
#[tactic(auto, unfolding(crate::specs::Logic::complemented))]
pub fn complemented(a: u8, flags: Flags80) -> Out80
    ensures { result ≡ logic.complemented a flags }
{
    reported(
        0xff - a,
        Flags80 {
            h: true,
            n: true,
            ..flags
        },
    )
}

/// SCF
#[tactic(auto, unfolding(crate::specs::Logic::carry_set))]
pub fn carry_set(a: u8, flags: Flags80) -> Out80
    ensures { result ≡ logic.carry_set a flags }
{
    reported(
        a,
        Flags80 {
            h: false,
            n: false,
            c: true,
            ..flags
        },
    )
}

/// CCF
#[tactic(auto, unfolding(crate::specs::Logic::carry_changed))]
pub fn carry_changed(a: u8, flags: Flags80) -> Out80
    ensures { result ≡ logic.carry_changed a flags }
{
    reported(
        a,
        Flags80 {
            h: flags.c,
            n: false,
            c: !flags.c,
            ..flags
        },
    )
}

/// What a bit is worth.
fn worth(bit: Bit) -> u8
    ensures value { result ≡ logic.worth_of bit }
    ensures some { result ≢ 0 }
{
    match bit {
        Bit::Bit0 => 1,
        Bit::Bit1 => 2,
        Bit::Bit2 => 4,
        Bit::Bit3 => 8,
        Bit::Bit4 => 16,
        Bit::Bit5 => 32,
        Bit::Bit6 => 64,
        Bit::Bit7 => 128,
    }
}

/// BIT
#[tactic(auto, unfolding(crate::specs::Logic::bit_tested))]
pub fn bit_tested(bit: Bit, b: u8, flags: Flags80) -> Out80
    ensures { result ≡ logic.bit_tested bit b flags }
{
    reported(
        b,
        Flags80 {
            z: b / worth(bit) % 2 == 0,
            h: true,
            n: false,
            ..flags
        },
    )
}

/// RES
#[tactic(auto, unfolding(crate::specs::Logic::bit_reset))]
pub fn bit_reset(bit: Bit, b: u8, f: u8) -> Out80
    ensures { result ≡ logic.bit_reset bit b f }
{
    Out80 {
        value: b & (0xff - worth(bit)),
        f,
    }
}

/// SET
#[tactic(auto, unfolding(crate::specs::Logic::bit_set))]
pub fn bit_set(bit: Bit, b: u8, f: u8) -> Out80
    ensures { result ≡ logic.bit_set bit b f }
{
    Out80 {
        value: b | worth(bit),
        f,
    }
}

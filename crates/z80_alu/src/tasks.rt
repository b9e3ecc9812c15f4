ghost use Rattle.std.specs.Prelude.{◌≡◌};
ghost use Rattle.z80_alu.specs.Tasks.{computed};

use crate::arithmetic::{added, compared, decremented, incremented, subtracted};
use crate::decimal::adjusted;
use crate::logic::{
    bit_reset, bit_set, bit_tested, carry_changed, carry_set, complemented, logical, read_in,
};
use crate::shifts::{digit_rotated, left, right, shifted, turned, with_low_digit};
use crate::{Flags80, Out80, Task80};

/// The value of an operation, and the flags after it: `a` is the accumulator, `b` the operand, `f`
/// the flags before.
///
/// INC, DEC, the rotates and shifts of the prefix CB, BIT, RES, SET and IN work on the operand;
/// RLCA and its kin, DAA, CPL, NEG, SCF and CCF on the accumulator; the others on both. CP and BIT
/// leave the value as it was. RES and SET leave F as it is; the others write bits 5 and 3 of it
/// as 0. Flags that the manual calls unknown stay.
///
/// Source: Zilog UM0080, "Z80 Instruction Description".
#[inline]
pub fn compute(task: Task80, a: u8, b: u8, f: u8) -> Out80
    ensures { result ≡ computed task a b f }
{
    let flags = Flags80::of(f);
    match task {
        Task80::Add => added(a, b, false),
        Task80::Adc => added(a, b, flags.c),
        Task80::Sub => subtracted(a, b, false),
        Task80::Sbc => subtracted(a, b, flags.c),
        Task80::And => logical(a & b, true),
        Task80::Xor => logical(a ^ b, false),
        Task80::Or => logical(a | b, false),
        Task80::Cp => compared(a, b),
        Task80::Inc => incremented(b, flags),
        Task80::Dec => decremented(b, flags),
        Task80::Rlc => shifted(left(b, b >= 0x80), b >= 0x80),
        Task80::Rrc => shifted(right(b, b % 2 == 1), b % 2 == 1),
        Task80::Rl => shifted(left(b, flags.c), b >= 0x80),
        Task80::Rr => shifted(right(b, flags.c), b % 2 == 1),
        Task80::Sla => shifted(left(b, false), b >= 0x80),
        Task80::Sra => shifted(right(b, b >= 0x80), b % 2 == 1),
        Task80::Sll => shifted(left(b, true), b >= 0x80),
        Task80::Srl => shifted(right(b, false), b % 2 == 1),
        Task80::Test(bit) => bit_tested(bit, b, flags),
        Task80::Res(bit) => bit_reset(bit, b, f),
        Task80::Set(bit) => bit_set(bit, b, f),
        Task80::Rlca => turned(left(a, a >= 0x80), a >= 0x80, flags),
        Task80::Rrca => turned(right(a, a % 2 == 1), a % 2 == 1, flags),
        Task80::Rla => turned(left(a, flags.c), a >= 0x80, flags),
        Task80::Rra => turned(right(a, flags.c), a % 2 == 1, flags),
        Task80::Daa => adjusted(a, flags),
        Task80::Cpl => complemented(a, flags),
        Task80::Neg => subtracted(0, a, false),
        Task80::Scf => carry_set(a, flags),
        Task80::Ccf => carry_changed(a, flags),
        Task80::Rld => digit_rotated(with_low_digit(a, b / 16), flags),
        Task80::Rrd => digit_rotated(with_low_digit(a, b % 16), flags),
        Task80::In => read_in(b, flags),
    }
}

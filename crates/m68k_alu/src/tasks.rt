ghost use Rattle.std.specs.Prelude.{◌≡◌, ◌<◌};
ghost use Rattle.md_word.specs.Width.{modulus_of};
ghost use Rattle.m68k_alu.specs.Tasks.{KeepsDecimals, ShowsSign, computed};

use crate::Out;
use crate::arithmetic::{added, compared, subtracted};
use crate::bits::{
    bit_changed, bit_cleared, bit_set, bit_tested, product, set_tested, signed_product, swapped,
    widened,
};
use crate::decimal::{decimal_added, decimal_subtracted};
use crate::logic::{and, complement, exclusive_or, or};
use crate::results::{moved, zero_kept};
use crate::shifts::{
    doubling_overflows, rotated_left, rotated_right, rotated_with_extend, shifted_left,
    shifted_right, shifted_right_signed,
};
use md_word::{Flags, Size, Task};

/// The value of an operation on a target and a source, and the condition codes after it.
///
/// Both operands are of the operation's size. Of an operation on one operand that is the target;
/// MOVE and TST take the source, and CLR looks at neither. A shift's count and a bit's number are
/// the source: a count goes round at 64, a number at the width. CMP and BTST leave the target.
/// Flags that the manual leaves undefined stay.
///
/// Some operations have fewer sizes than three. ABCD, NBCD, SBCD and TAS are of bytes, and look at
/// the low ones alone. EXT, of words and longs, extends the low half of the target. MULS, MULU and
/// SWAP are of longs: the first two multiply the low words, and at a lesser size each gives the low
/// part of its long.
///
/// Source: M68000 Programmer's Reference Manual, sections 3.2 and 4.
#[tactic(auto, using(crate::proofs::Digits::adds, crate::proofs::Digits::subtracts, crate::proofs::Digits::negates))]
pub fn compute(task: Task, size: Size, source: u32, target: u32, flags: Flags) -> Out
    requires source { source < modulus_of size }
    requires target { target < modulus_of size }
    ensures value { result ≡ computed task size source target flags }
    ensures below { result.value < modulus_of size }
    ensures decimal { KeepsDecimals task source target flags result }
    ensures sign { ShowsSign task size source target result }
{
    let count = source % 64;
    let around = u32::from(size.width()) + 1;
    match task {
        Task::Abcd => decimal_added(source % 0x100, target % 0x100, flags),
        Task::Add => added(size, source, target, false),
        Task::Addx => zero_kept(flags, added(size, source, target, flags.x)),
        Task::And => and(size, source, target, flags),
        Task::Asl => shifted_left(
            size,
            count,
            target,
            doubling_overflows(size, count, target),
            flags,
        ),
        Task::Asr => shifted_right_signed(size, count, target, flags),
        Task::Bchg => bit_changed(size, source, target, flags),
        Task::Bclr => bit_cleared(size, source, target, flags),
        Task::Bset => bit_set(size, source, target, flags),
        Task::Btst => bit_tested(size, source, target, flags),
        Task::Clr => moved(size, 0, flags),
        Task::Cmp => compared(size, source, target, flags),
        Task::Eor => exclusive_or(size, source, target, flags),
        Task::Ext => moved(size, widened(size, target), flags),
        Task::Lsl => shifted_left(size, count, target, false, flags),
        Task::Lsr => shifted_right(size, count, target, flags),
        Task::Move => moved(size, source, flags),
        Task::Muls => moved(size, size.low(signed_product(source, target)), flags),
        Task::Mulu => moved(size, size.low(product(source, target)), flags),
        Task::Nbcd => decimal_subtracted(target % 0x100, 0, flags),
        Task::Neg => subtracted(size, target, 0, false),
        Task::Negx => zero_kept(flags, subtracted(size, target, 0, flags.x)),
        Task::Not => complement(size, target, flags),
        Task::Or => or(size, source, target, flags),
        Task::Rol => rotated_left(size, count, target, flags),
        Task::Ror => rotated_right(size, count, target, flags),
        Task::Roxl => rotated_with_extend(size, count % around, target, flags),
        Task::Roxr => rotated_with_extend(size, around - count % around, target, flags),
        Task::Sbcd => decimal_subtracted(source % 0x100, target % 0x100, flags),
        Task::Sub => subtracted(size, source, target, false),
        Task::Subx => zero_kept(flags, subtracted(size, source, target, flags.x)),
        Task::Swap => moved(size, size.low(swapped(target)), flags),
        Task::Tas => set_tested(target % 0x100, flags),
    }
}

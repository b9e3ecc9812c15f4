ghost use Rattle.std.specs.Prelude.{◌≡◌, ◌<◌, ◌≤◌};
ghost use Rattle.md_word.specs.Modes.{IsMode};
ghost use Rattle.asm_m68k.specs.Encoding as encoding;

use m68k_decode::{Condition, Displacement};
use md_word::{Mode, Size, Task};

/// A mode and its register, in six bits. M68000 Programmer's Reference Manual, section 2.2, "Effective Addressing Modes".
pub(crate) fn mode_code(mode: Mode) -> u16
    requires { IsMode mode }
    ensures value { result ≡ encoding.mode_code mode }
    ensures below { result < 64 }
{
    match mode {
        Mode::Data(n) => u16::from(n),
        Mode::Address(n) => 8 + u16::from(n),
        Mode::Indirect(n) => 16 + u16::from(n),
        Mode::PostInc(n) => 24 + u16::from(n),
        Mode::PreDec(n) => 32 + u16::from(n),
        Mode::Displaced(n, _) => 40 + u16::from(n),
        Mode::Indexed(n, _, _, _) => 48 + u16::from(n),
        Mode::AbsShort(_) => 56,
        Mode::AbsLong(_) => 57,
        Mode::PcDisplaced(_) => 58,
        Mode::PcIndexed(_, _, _) => 59,
        Mode::Immediate(_) => 60,
    }
}

/// The target of MOVE: its register comes before its mode.
pub(crate) fn target_code(mode: Mode) -> u16
    requires { IsMode mode }
    ensures value { result ≡ encoding.target_code mode }
    ensures below { result < 64 }
{
    let code = mode_code(mode);
    code % 8 * 8 + code / 8
}

/// Bits 3 to 0 of ABCD, SBCD, ADDX and SUBX.
pub(crate) fn pair_code(mode: Mode) -> u16
    requires { IsMode mode }
    ensures value { result ≡ encoding.pair_code mode }
    ensures below { result < 16 }
{
    let code = mode_code(mode);
    code / 32 * 8 + code % 8
}

/// The size in bits 7 and 6.
pub(crate) fn size_code(size: Size) -> u16
    ensures value { result ≡ encoding.size_code size }
    ensures below { result < 3 }
{
    match size {
        Size::Byte => 0,
        Size::Word => 1,
        Size::Long => 2,
    }
}

/// The size of MOVE.
pub(crate) fn move_size_code(size: Size) -> u16
    ensures value { result ≡ encoding.move_size_code size }
    ensures below { result < 4 }
{
    match size {
        Size::Byte => 1,
        Size::Word => 3,
        Size::Long => 2,
    }
}

/// Word or long, in one bit.
pub(crate) fn long_code(size: Size) -> u16
    ensures value { result ≡ encoding.long_code size }
    ensures below { result < 2 }
{
    match size {
        Size::Byte | Size::Word => 0,
        Size::Long => 1,
    }
}

/// A condition, in four bits.
pub(crate) fn condition_code(condition: Condition) -> u16
    ensures value { result ≡ encoding.condition_code condition }
    ensures below { result < 16 }
{
    match condition {
        Condition::True => 0,
        Condition::False => 1,
        Condition::High => 2,
        Condition::LowOrSame => 3,
        Condition::CarryClear => 4,
        Condition::CarrySet => 5,
        Condition::NotEqual => 6,
        Condition::Equal => 7,
        Condition::OverflowClear => 8,
        Condition::OverflowSet => 9,
        Condition::Plus => 10,
        Condition::Minus => 11,
        Condition::GreaterOrEqual => 12,
        Condition::LessThan => 13,
        Condition::GreaterThan => 14,
        Condition::LessOrEqual => 15,
    }
}

/// The bits that name an operation among those of its row.
pub(crate) fn task_code(task: Task) -> u16
    ensures value { result ≡ encoding.task_code task }
    ensures below { result < 8 }
{
    match task {
        Task::And | Task::Bchg | Task::Clr | Task::Lsr => 1,
        Task::Sub | Task::Bclr | Task::Neg | Task::Roxr => 2,
        Task::Add | Task::Bset | Task::Not | Task::Ror => 3,
        Task::Asl => 4,
        Task::Eor | Task::Lsl => 5,
        Task::Roxl => 6,
        Task::Rol => 7,
        _ => 0,
    }
}

/// The first digit of an operation between a register and a place.
pub(crate) fn group_of(task: Task) -> u16
    ensures value { result ≡ encoding.group_of task }
    ensures most { result ≤ 0xd000 }
{
    match task {
        Task::Or | Task::Sbcd => 0x8000,
        Task::Sub | Task::Subx => 0x9000,
        Task::And | Task::Abcd => 0xc000,
        _ => 0xd000,
    }
}

/// ADDQ or SUBQ, in bit 8.
pub(crate) fn quick_code(task: Task) -> u16
    ensures value { result ≡ encoding.quick_code task }
    ensures below { result < 2 }
{
    match task {
        Task::Sub => 1,
        _ => 0,
    }
}

/// The low byte of a branch.
pub(crate) fn displacement_code(displacement: Displacement) -> u16
    ensures value { result ≡ encoding.displacement_code displacement }
    ensures below { result < 256 }
{
    match displacement {
        Displacement::Byte(by) => u16::from(by),
        Displacement::Word(_) => 0,
    }
}

/// EXG of two data registers, of two address registers, or of one of each.
pub(crate) fn exchange(x: u8, y: u8) -> u16
    requires first { x < 16 }
    requires second { y < 16 }
    ensures { result ≡ encoding.exchange x y }
{
    if y < 8 {
        0xc140 + 512 * u16::from(x) + u16::from(y)
    } else if x < 8 {
        0xc180 + 512 * u16::from(x) + u16::from(y)
    } else {
        0xc140 + 512 * u16::from(x - 8) + u16::from(y)
    }
}

ghost use Rattle.std.specs.Prelude.{◌≡◌, ◌+◌, ◌*◌, ◌%◌, ◌<◌, ◌≤◌};
ghost use Rattle.md_word.specs.Modes.{IsMode};
ghost use Rattle.asm_m68k.specs.Encoding as encoding;

use crate::codes::{long_code, mode_code, size_code, task_code};
use md_word::{Mode, Size, Task};

/// An opcode with the operation in bits 11 to 9.
pub(crate) fn with_task(opcode: u16, task: Task) -> u16
    requires { opcode ≤ 0xf000 }
    ensures value { result ≡ opcode + 512 * encoding.task_code task }
    ensures most { result ≤ opcode + 0x0e00 }
{
    opcode + 512 * task_code(task)
}

/// An opcode with a register in bits 11 to 9.
pub(crate) fn with_register(opcode: u16, n: u8) -> u16
    requires opcode { opcode ≤ 0xf000 }
    requires register { n < 8 }
    ensures value { result ≡ opcode + 512 * n }
    ensures most { result ≤ opcode + 0x0e00 }
{
    opcode + 512 * u16::from(n)
}

/// An opcode with a mode in bits 5 to 0.
pub(crate) fn with_mode(opcode: u16, mode: Mode) -> u16
    requires opcode { opcode ≤ 0xffc0 }
    requires mode { IsMode mode }
    ensures { result ≡ opcode + encoding.mode_code mode }
{
    opcode + mode_code(mode)
}

/// An opcode with a size in bits 7 and 6, and a mode.
pub(crate) fn with_size(opcode: u16, size: Size, mode: Mode) -> u16
    requires opcode { opcode ≤ 0xff00 }
    requires mode { IsMode mode }
    ensures { result ≡ opcode + 64 * encoding.size_code size + encoding.mode_code mode }
{
    opcode + 64 * size_code(size) + mode_code(mode)
}

/// An opcode with the operation of a bit in bits 7 and 6, and a mode.
pub(crate) fn with_bits(opcode: u16, task: Task, mode: Mode) -> u16
    requires opcode { opcode ≤ 0xf000 }
    requires mode { IsMode mode }
    ensures { result ≡ opcode + 64 * encoding.task_code task + encoding.mode_code mode }
{
    opcode + 64 * task_code(task) + mode_code(mode)
}

/// An opcode with word or long in bit 6.
pub(crate) fn with_long(opcode: u16, size: Size) -> u16
    requires { opcode ≤ 0xf000 }
    ensures value { result ≡ opcode + 64 * encoding.long_code size }
    ensures most { result ≤ opcode + 64 }
{
    opcode + 64 * long_code(size)
}

/// An opcode with the register of a target in bits 11 to 9.
pub(crate) fn with_target(opcode: u16, target: Mode) -> u16
    requires opcode { opcode ≤ 0xf000 }
    requires target { IsMode target }
    ensures value { result ≡ opcode + 512 * (encoding.mode_code target % 8) }
    ensures most { result ≤ opcode + 0x0e00 }
{
    opcode + 512 * (mode_code(target) % 8)
}

/// An opcode with a shift: its direction in bit 8, its size, its kind in bits 4 and 3, and its register.
pub(crate) fn with_shift(opcode: u16, task: Task, size: Size, r: u8) -> u16
    requires opcode { opcode ≤ 0xf000 }
    requires register { r < 8 }
    ensures { result ≡ opcode + 256 * encoding.left_code task + 64 * encoding.size_code size + 8 * encoding.kind_code task + r }
{
    let code = task_code(task);
    opcode + 256 * (code / 4) + 64 * size_code(size) + 8 * (code % 4) + u16::from(r)
}

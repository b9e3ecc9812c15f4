ghost use Rattle.std.specs.Prelude.{◌≡◌};
ghost use Rattle.md_disasm.specs.Names68 as names;

use md_word::{Size, Task};

/// The name of an operation.
pub(crate) fn task_name(task: Task) -> &'static str
    ensures { result.now ≡ names.task_name task }
{
    match task {
        Task::Abcd => "abcd",
        Task::Add => "add",
        Task::Addx => "addx",
        Task::And => "and",
        Task::Asl => "asl",
        Task::Asr => "asr",
        Task::Bchg => "bchg",
        Task::Bclr => "bclr",
        Task::Bset => "bset",
        Task::Btst => "btst",
        Task::Clr => "clr",
        Task::Cmp => "cmp",
        Task::Eor => "eor",
        Task::Ext => "ext",
        Task::Lsl => "lsl",
        Task::Lsr => "lsr",
        Task::Move => "move",
        Task::Muls => "muls",
        Task::Mulu => "mulu",
        Task::Nbcd => "nbcd",
        Task::Neg => "neg",
        Task::Negx => "negx",
        Task::Not => "not",
        Task::Or => "or",
        Task::Rol => "rol",
        Task::Ror => "ror",
        Task::Roxl => "roxl",
        Task::Roxr => "roxr",
        Task::Sbcd => "sbcd",
        Task::Sub => "sub",
        Task::Subx => "subx",
        Task::Swap => "swap",
        Task::Tas => "tas",
    }
}

/// The letter of a size, with its point.
pub(crate) fn size_name(size: Size) -> &'static str
    ensures { result.now ≡ names.size_name size }
{
    match size {
        Size::Byte => ".b",
        Size::Word => ".w",
        Size::Long => ".l",
    }
}

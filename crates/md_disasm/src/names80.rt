ghost use Rattle.std.specs.Prelude.{◌≡◌};
ghost use Rattle.md_disasm.specs.Names80 as names;

use z80_decode::{Block, Task80};

/// The name of an operation.
pub(crate) fn task_name(task: Task80) -> &'static str
    ensures { result.now ≡ names.task_name task }
{
    match task {
        Task80::Add => "add",
        Task80::Adc => "adc",
        Task80::Sub => "sub",
        Task80::Sbc => "sbc",
        Task80::And => "and",
        Task80::Xor => "xor",
        Task80::Or => "or",
        Task80::Cp => "cp",
        Task80::Inc => "inc",
        Task80::Dec => "dec",
        Task80::Rlc => "rlc",
        Task80::Rrc => "rrc",
        Task80::Rl => "rl",
        Task80::Rr => "rr",
        Task80::Sla => "sla",
        Task80::Sra => "sra",
        Task80::Sll => "sll",
        Task80::Srl => "srl",
        Task80::Test(_) => "bit",
        Task80::Res(_) => "res",
        Task80::Set(_) => "set",
        Task80::Rlca => "rlca",
        Task80::Rrca => "rrca",
        Task80::Rla => "rla",
        Task80::Rra => "rra",
        Task80::Daa => "daa",
        Task80::Cpl => "cpl",
        Task80::Neg => "neg",
        Task80::Scf => "scf",
        Task80::Ccf => "ccf",
        Task80::Rld => "rld",
        Task80::Rrd => "rrd",
        Task80::In => "in",
    }
}

pub(crate) fn block_load(steps: Block) -> &'static str
    ensures { result.now ≡ names.block_load steps }
{
    match steps {
        Block::Increment => "ldi",
        Block::Decrement => "ldd",
        Block::IncrementRepeat => "ldir",
        Block::DecrementRepeat => "lddr",
    }
}

pub(crate) fn block_compare(steps: Block) -> &'static str
    ensures { result.now ≡ names.block_compare steps }
{
    match steps {
        Block::Increment => "cpi",
        Block::Decrement => "cpd",
        Block::IncrementRepeat => "cpir",
        Block::DecrementRepeat => "cpdr",
    }
}

pub(crate) fn block_input(steps: Block) -> &'static str
    ensures { result.now ≡ names.block_input steps }
{
    match steps {
        Block::Increment => "ini",
        Block::Decrement => "ind",
        Block::IncrementRepeat => "inir",
        Block::DecrementRepeat => "indr",
    }
}

pub(crate) fn block_output(steps: Block) -> &'static str
    ensures { result.now ≡ names.block_output steps }
{
    match steps {
        Block::Increment => "outi",
        Block::Decrement => "outd",
        Block::IncrementRepeat => "otir",
        Block::DecrementRepeat => "otdr",
    }
}

ghost use Rattle.std.specs.Prelude.{◌≡◌, ◌+◌, ◌<◌, ◌≤◌};
ghost use Rattle.arrayvec.specs.ArrayVec.{array_vec_len};
ghost use Rattle.md_word.specs.Modes.{IsMode};
ghost use Rattle.md_word.specs.Width.{modulus_of};
ghost use Rattle.md_word.specs.declared.size.Size.TheVariants.{Byte};
ghost use Rattle.m68k_decode.specs.Ops.{touches_of};
ghost use Rattle.m68k_exec.specs.Rows.Bits as bits;
ghost use Rattle.m68k_access.specs.Clauses.{Ends, done_of, memory_of};

use crate::{Context, Outcome, Progress, Stop};
use m68k_access::shapes::{change_operand, test_operand};
use md_word::{Mode, Regs, Size, Task};

/// A data register is a long, memory a byte.
pub fn bit_size(mode: Mode) -> Size
    ensures size { result ≡ bits.bit_size mode }
    ensures touches { touches_of result mode ≡ touches_of Byte mode }
{
    match mode {
        Mode::Data(_) => Size::Long,
        _ => Size::Byte,
    }
}

/// BTST only reads, the others write too.
fn bit_of_size(
    task: Task,
    size: Size,
    number: u32,
    mode: Mode,
    pc: u32,
    context: &Context,
    regs: &mut Regs,
    progress: &mut Progress,
) -> Result<Outcome, Stop>
    requires mode { IsMode mode }
    requires number { number < modulus_of size }
    requires fresh { array_vec_len progress.old.writes ≡ 0 }
    ensures value { Ends result regs.new (done_of progress.new) (bits.bit_of_size task size number mode pc regs.old (memory_of context.now) (done_of progress.old)) }
    ensures written { array_vec_len progress.new.writes ≤ array_vec_len progress.old.writes + 4 }
{
    match task {
        Task::Btst => test_operand(task, size, number, mode, pc, context, regs, progress),
        _ => change_operand(task, size, number, mode, pc, context, regs, progress),
    }
}

/// BTST, BCHG, BCLR, BSET of the bit of a number, which goes round at the operand's width.
#[tactic(auto, unfolding(crate::specs::Rows::Bits::bit))]
fn bit(
    task: Task,
    number: u32,
    mode: Mode,
    pc: u32,
    context: &Context,
    regs: &mut Regs,
    progress: &mut Progress,
) -> Result<Outcome, Stop>
    requires mode { IsMode mode }
    requires fresh { array_vec_len progress.old.writes ≡ 0 }
    ensures value { Ends result regs.new (done_of progress.new) (bits.bit task number mode pc regs.old (memory_of context.now) (done_of progress.old)) }
    ensures written { array_vec_len progress.new.writes ≤ array_vec_len progress.old.writes + 4 }
{
    let size = bit_size(mode);
    bit_of_size(
        task,
        size,
        size.low(number),
        mode,
        pc,
        context,
        regs,
        progress,
    )
}

/// BTST, BCHG, BCLR, BSET of the bit that a data register names.
#[tactic(auto, unfolding(crate::specs::Rows::Bits::bit_by_register))]
pub fn bit_by_register(
    task: Task,
    number: u8,
    mode: Mode,
    start: u32,
    context: &Context,
    regs: &mut Regs,
    progress: &mut Progress,
) -> Result<Outcome, Stop>
    requires number { number < 8 }
    requires mode { IsMode mode }
    requires fresh { array_vec_len progress.old.writes ≡ 0 }
    ensures value { Ends result regs.new (done_of progress.new) (bits.bit_by_register task number mode start regs.old (memory_of context.now) (done_of progress.old)) }
    ensures written { array_vec_len progress.new.writes ≤ array_vec_len progress.old.writes + 4 }
{
    let bit_number = regs.register(number);
    bit(
        task,
        bit_number,
        mode,
        start.wrapping_add(2),
        context,
        regs,
        progress,
    )
}

/// BTST, BCHG, BCLR, BSET of the bit of this number, which precedes the mode's words.
#[tactic(auto, unfolding(crate::specs::Rows::Bits::bit_by_number))]
pub fn bit_by_number(
    task: Task,
    number: u8,
    mode: Mode,
    start: u32,
    context: &Context,
    regs: &mut Regs,
    progress: &mut Progress,
) -> Result<Outcome, Stop>
    requires mode { IsMode mode }
    requires fresh { array_vec_len progress.old.writes ≡ 0 }
    ensures value { Ends result regs.new (done_of progress.new) (bits.bit_by_number task number mode start regs.old (memory_of context.now) (done_of progress.old)) }
    ensures written { array_vec_len progress.new.writes ≤ array_vec_len progress.old.writes + 4 }
{
    bit(
        task,
        u32::from(number),
        mode,
        start.wrapping_add(4),
        context,
        regs,
        progress,
    )
}

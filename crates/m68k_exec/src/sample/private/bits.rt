//! Tests of a bit, with the operand in a register, in the instruction, in the cartridge or in work RAM. Each answers
//! whether it was carried out; else nothing changes.
ghost use Rattle.std.specs.Prelude.{◌≡◌, ◌<◌};
ghost use Rattle.md_word.specs.Modes.{IsMode};
ghost use Rattle.md_word.specs.declared.task.Task.TheVariants.{Btst};
ghost use Rattle.m68k_access.specs.Clauses.{memory_of};
ghost use Rattle.m68k_exec.specs.Rows.Bits as bits;
ghost use Rattle.m68k_exec.specs.Sample.Private.{Changes};

use super::operands::operand;
use crate::Context;
use crate::rows::bits::bit_size;
use m68k_alu::compute;
use md_word::{Mode, Regs, Task};

/// BTST of the bit of a number, which goes round at the operand's width.
#[inline(always)]
#[tactic(auto, unfolding(crate::specs::Rows::Bits::bit, m68k_access::specs::Shapes::test_operand))]
fn test_bit(number: u32, mode: Mode, pc: u32, context: &Context, regs: &mut Regs) -> bool
    requires { IsMode mode }
    ensures { Changes result (bits.bit Btst number mode pc regs.old) regs.old regs.new (memory_of context.now) }
{
    let flags = regs.flags();
    let size = bit_size(mode);
    match operand(mode, size, pc, context, regs) {
        Some(value) => {
            let out = compute(Task::Btst, size, size.low(number), value, flags);
            regs.set_flags(out.flags);
            true
        }
        None => false,
    }
}

/// BTST of the bit that a data register names.
#[inline(never)]
#[tactic(auto, unfolding(crate::specs::Rows::Bits::bit_by_register))]
pub fn bit_by_register(
    task: Task,
    number: u8,
    mode: Mode,
    start: u32,
    context: &Context,
    regs: &mut Regs,
) -> bool
    requires number { number < 8 }
    requires mode { IsMode mode }
    ensures { Changes result (bits.bit_by_register task number mode start regs.old) regs.old regs.new (memory_of context.now) }
{
    match task {
        Task::Btst => {
            let bit = regs.register(number);
            test_bit(bit, mode, start.wrapping_add(2), context, regs)
        }
        _ => false,
    }
}

/// BTST of the bit of this number, which precedes the mode's words.
#[inline(never)]
#[tactic(auto, unfolding(crate::specs::Rows::Bits::bit_by_number))]
pub fn bit_by_number(
    task: Task,
    number: u8,
    mode: Mode,
    start: u32,
    context: &Context,
    regs: &mut Regs,
) -> bool
    requires mode { IsMode mode }
    ensures { Changes result (bits.bit_by_number task number mode start regs.old) regs.old regs.new (memory_of context.now) }
{
    match task {
        Task::Btst => {
            test_bit(
                u32::from(number),
                mode,
                start.wrapping_add(4),
                context,
                regs,
            )
        }
        _ => false,
    }
}

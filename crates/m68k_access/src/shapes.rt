ghost use Rattle.m68k_access.specs.Outcomes.{ended_in, outcome_of};
ghost use Rattle.std.specs.Prelude.{◌≡◌, ◌+◌, ◌<◌, ◌≤◌};
ghost use Rattle.arrayvec.specs.ArrayVec.{array_vec_len};
ghost use Rattle.md_word.specs.Modes.{IsMode};
ghost use Rattle.md_word.specs.Width.{modulus_of};
ghost use Rattle.m68k_access.specs.Clauses.{Ends, done_of, memory_of};
ghost use Rattle.m68k_access.specs.Shapes as shapes;

use crate::operands::{fetch, load, locate, put, set_part, step};
use crate::{Context, Outcome, Progress, Stop};
use m68k_alu::compute;
use md_word::{Mode, Regs, Size, Task};

/// The instruction continues at another address.
pub fn jump_to(target: u32, regs: &mut Regs) -> Outcome
    ensures { outcome_of result regs.new ≡ shapes.jump_to target regs.old }
{
    regs.pc = target;
    Outcome::plain()
}

/// The instruction ends in the exception of this vector number, which saves the address of the next
/// one.
pub fn end_in(vector: u8) -> Outcome
    ensures { result ≡ ended_in vector }
{
    Outcome {
        vector,
        ..Outcome::plain()
    }
}

/// The instruction is not carried out: the exception of this vector number saves its own address.
pub fn refuse(vector: u8, start: u32, regs: &mut Regs) -> Outcome
    ensures { outcome_of result regs.new ≡ shapes.refuse vector start regs.old }
{
    regs.pc = start;
    end_in(vector)
}

/// Reads an operand and sets the flags. `pc` is where the mode's extension words are.
/// Stops where an access waits for its answer, or a word or long has an odd address.
#[inline(always)]
#[tactic(auto, unfolding(crate::specs::Shapes::test_operand))]
pub fn test_operand(
    task: Task,
    size: Size,
    number: u32,
    mode: Mode,
    pc: u32,
    context: &Context,
    regs: &mut Regs,
    progress: &mut Progress,
) -> Result<Outcome, Stop>
    requires mode { IsMode mode }
    requires number { number < modulus_of size }
    ensures value { Ends result regs.new (done_of progress.new) (shapes.test_operand task size number mode pc regs.old (memory_of context.now) (done_of progress.old)) }
    ensures written { array_vec_len progress.new.writes ≤ array_vec_len progress.old.writes }
{
    let flags = regs.flags();
    let operand = load(mode, size, pc, context, regs, progress)?;
    let out = compute(task, size, number, operand, flags);
    regs.set_flags(out.flags);
    Ok(Outcome::plain())
}

/// Reads an operand, does the operation, and writes the result where the operand was.
/// Stops where an access waits for its answer, or a word or long has an odd address.
#[inline(always)]
#[tactic(auto, unfolding(crate::specs::Shapes::change_operand))]
pub fn change_operand(
    task: Task,
    size: Size,
    number: u32,
    mode: Mode,
    pc: u32,
    context: &Context,
    regs: &mut Regs,
    progress: &mut Progress,
) -> Result<Outcome, Stop>
    requires mode { IsMode mode }
    requires number { number < modulus_of size }
    requires fresh { array_vec_len progress.old.writes ≡ 0 }
    ensures value { Ends result regs.new (done_of progress.new) (shapes.change_operand task size number mode pc regs.old (memory_of context.now) (done_of progress.old)) }
    ensures written { array_vec_len progress.new.writes ≤ array_vec_len progress.old.writes + 4 }
{
    let to = locate(mode, size, pc, regs);
    let flags = regs.flags();
    step(mode, size, regs);
    let old = fetch(size, to, context, regs, progress)?;
    let out = compute(task, size, number, old, flags);
    put(size, to, out.value, context, regs, progress)?;
    regs.set_flags(out.flags);
    Ok(Outcome::plain())
}

/// Does the operation on a register, and reads nothing: 0 to 7 for D0 to D7, 8 to 15 for A0 to A7.
#[inline(always)]
#[tactic(auto, unfolding(crate::specs::Shapes::change_data))]
pub fn change_data(task: Task, size: Size, number: u32, register: u8, regs: &mut Regs) -> Outcome
    requires number { number < modulus_of size }
    requires register { register < 16 }
    ensures { outcome_of result regs.new ≡ shapes.change_data task size number register regs.old }
{
    let old = regs.register(register);
    let out = compute(task, size, number, size.low(old), regs.flags());
    set_part(size, register, out.value, regs);
    regs.set_flags(out.flags);
    Outcome::plain()
}

/// Reads an operand, and does the operation with it on a register: 0 to 7 for D0 to D7, 8 to 15 for
/// A0 to A7. Stops where an access waits for its answer, or a word or long has an odd address.
#[inline(always)]
#[tactic(auto, unfolding(crate::specs::Shapes::change_register))]
pub fn change_register(
    task: Task,
    size: Size,
    number: u8,
    mode: Mode,
    pc: u32,
    context: &Context,
    regs: &mut Regs,
    progress: &mut Progress,
) -> Result<Outcome, Stop>
    requires mode { IsMode mode }
    requires number { number < 16 }
    ensures value { Ends result regs.new (done_of progress.new) (shapes.change_register task size number mode pc regs.old (memory_of context.now) (done_of progress.old)) }
    ensures written { array_vec_len progress.new.writes ≤ array_vec_len progress.old.writes }
{
    let flags = regs.flags();
    let operand = load(mode, size, pc, context, regs, progress)?;
    let old = regs.register(number);
    let out = compute(task, size, operand, size.low(old), flags);
    set_part(size, number, out.value, regs);
    regs.set_flags(out.flags);
    Ok(Outcome::plain())
}

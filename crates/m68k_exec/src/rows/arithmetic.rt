ghost use Rattle.m68k_access.specs.Outcomes.{outcome_of};
ghost use Rattle.std.specs.Prelude.{◌≡◌, ◌+◌, ◌<◌, ◌≤◌};
ghost use Rattle.arrayvec.specs.ArrayVec.{array_vec_len};
ghost use Rattle.md_word.specs.Modes.{IsMode};
ghost use Rattle.md_word.specs.declared.size.Size.TheVariants.{Word};
ghost use Rattle.m68k_exec.specs.Rows.Arithmetic as arithmetic;
ghost use Rattle.m68k_access.specs.Clauses.{Ends, done_of, memory_of};

use crate::{Context, Outcome, Progress, Stop};
use m68k_access::operands::load;
use m68k_access::shapes::{change_operand, change_register};
use m68k_alu::compute;
use md_word::{Mode, Regs, Size, Task, extend};

/// Adds to or subtracts from the whole of an address register, and leaves the flags.
#[tactic(auto, unfolding(crate::specs::Rows::Arithmetic::change_address))]
pub fn change_address(task: Task, value: u32, number: u8, regs: &mut Regs) -> Outcome
    requires { number < 8 }
    ensures { outcome_of result regs.new ≡ arithmetic.change_address task value number regs.old }
{
    let old = regs.address(number);
    let out = compute(task, Size::Long, value, old, regs.flags());
    regs.set_address(number, out.value);
    Outcome::plain()
}

/// ADDQ, SUBQ: of an address register all is changed, whatever the size, and no flag.
pub fn quick(
    task: Task,
    size: Size,
    value: u8,
    mode: Mode,
    start: u32,
    context: &Context,
    regs: &mut Regs,
    progress: &mut Progress,
) -> Result<Outcome, Stop>
    requires value { value ≤ 8 }
    requires mode { IsMode mode }
    requires fresh { array_vec_len progress.old.writes ≡ 0 }
    ensures value { Ends result regs.new (done_of progress.new) (arithmetic.quick task size value mode start regs.old (memory_of context.now) (done_of progress.old)) }
    ensures written { array_vec_len progress.new.writes ≤ array_vec_len progress.old.writes + 4 }
{
    let value = u32::from(value);
    let pc = start.wrapping_add(2);
    match mode {
        Mode::Address(number) => Ok(change_address(task, value, number, regs)),
        _ => change_operand(task, size, value, mode, pc, context, regs, progress),
    }
}

/// OR, SUB, AND, ADD to a data register.
#[tactic(auto, unfolding(crate::specs::Rows::Arithmetic::to_register))]
pub fn to_register(
    task: Task,
    size: Size,
    number: u8,
    mode: Mode,
    start: u32,
    context: &Context,
    regs: &mut Regs,
    progress: &mut Progress,
) -> Result<Outcome, Stop>
    requires number { number < 8 }
    requires mode { IsMode mode }
    ensures value { Ends result regs.new (done_of progress.new) (arithmetic.to_register task size number mode start regs.old (memory_of context.now) (done_of progress.old)) }
    ensures written { array_vec_len progress.new.writes ≤ array_vec_len progress.old.writes }
{
    let pc = start.wrapping_add(2);
    change_register(task, size, number, mode, pc, context, regs, progress)
}

/// OR, SUB, AND, ADD of a data register to memory.
#[tactic(auto, unfolding(crate::specs::Rows::Arithmetic::to_memory))]
pub fn to_memory(
    task: Task,
    size: Size,
    number: u8,
    mode: Mode,
    start: u32,
    context: &Context,
    regs: &mut Regs,
    progress: &mut Progress,
) -> Result<Outcome, Stop>
    requires number { number < 8 }
    requires mode { IsMode mode }
    requires fresh { array_vec_len progress.old.writes ≡ 0 }
    ensures value { Ends result regs.new (done_of progress.new) (arithmetic.to_memory task size number mode start regs.old (memory_of context.now) (done_of progress.old)) }
    ensures written { array_vec_len progress.new.writes ≤ array_vec_len progress.old.writes + 4 }
{
    let source = size.low(regs.register(number));
    let pc = start.wrapping_add(2);
    change_operand(task, size, source, mode, pc, context, regs, progress)
}

/// EOR of a data register to another or to memory.
#[tactic(auto, unfolding(crate::specs::Rows::Arithmetic::eor))]
pub fn eor(
    size: Size,
    number: u8,
    mode: Mode,
    start: u32,
    context: &Context,
    regs: &mut Regs,
    progress: &mut Progress,
) -> Result<Outcome, Stop>
    requires number { number < 8 }
    requires mode { IsMode mode }
    requires fresh { array_vec_len progress.old.writes ≡ 0 }
    ensures value { Ends result regs.new (done_of progress.new) (arithmetic.eor size number mode start regs.old (memory_of context.now) (done_of progress.old)) }
    ensures written { array_vec_len progress.new.writes ≤ array_vec_len progress.old.writes + 4 }
{
    to_memory(
        Task::Eor,
        size,
        number,
        mode,
        start,
        context,
        regs,
        progress,
    )
}

/// SUBA, ADDA: a word has its sign extended, and no flag is changed.
#[tactic(auto, unfolding(crate::specs::Rows::Arithmetic::to_address))]
pub fn to_address(
    task: Task,
    size: Size,
    number: u8,
    mode: Mode,
    start: u32,
    context: &Context,
    regs: &mut Regs,
    progress: &mut Progress,
) -> Result<Outcome, Stop>
    requires number { number < 8 }
    requires mode { IsMode mode }
    ensures value { Ends result regs.new (done_of progress.new) (arithmetic.to_address task size number mode start regs.old (memory_of context.now) (done_of progress.old)) }
    ensures written { array_vec_len progress.new.writes ≤ array_vec_len progress.old.writes }
{
    let pc = start.wrapping_add(2);
    let source = load(mode, size, pc, context, regs, progress)?;
    let value = extend(source, size);
    Ok(change_address(task, value, number, regs))
}

/// ASx, LSx, ROXx, ROx of a word in memory, by one place.
#[tactic(auto, unfolding(crate::specs::Rows::Arithmetic::shift_memory))]
pub fn shift_memory(
    task: Task,
    mode: Mode,
    start: u32,
    context: &Context,
    regs: &mut Regs,
    progress: &mut Progress,
) -> Result<Outcome, Stop>
    requires mode { IsMode mode }
    requires fresh { array_vec_len progress.old.writes ≡ 0 }
    ensures value { Ends result regs.new (done_of progress.new) (arithmetic.shift_memory task mode start regs.old (memory_of context.now) (done_of progress.old)) }
    ensures written { array_vec_len progress.new.writes ≤ array_vec_len progress.old.writes + 4 }
{
    let pc = start.wrapping_add(2);
    change_operand(task, Size::Word, 1, mode, pc, context, regs, progress)
}

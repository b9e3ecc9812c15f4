//! Rows whose operands are in registers, in the instruction, in the cartridge or in work RAM, with their result in a
//! register or in the flags. Each answers whether it was carried out; else nothing changes.
ghost use Rattle.std.specs.Prelude.{◌≡◌, ◌<◌, ◌≤◌};
ghost use Rattle.md_word.specs.Modes.{IsMode};
ghost use Rattle.md_word.specs.Width.{modulus_of};
ghost use Rattle.md_word.specs.declared.mode.Mode.TheVariants.{Data};
ghost use Rattle.m68k_access.specs.Clauses.{memory_of};
ghost use Rattle.m68k_access.specs.Memory.{Memory};
ghost use Rattle.m68k_access.specs.Shapes as shapes;
ghost use Rattle.m68k_exec.specs.Rows.Arithmetic as arithmetic;
ghost use Rattle.m68k_exec.specs.Rows.Comparisons as comparisons;
ghost use Rattle.m68k_exec.specs.Rows.Immediates as immediates;
ghost use Rattle.m68k_exec.specs.Rows.Moves as moves;
ghost use Rattle.m68k_exec.specs.Rows.Single as single;
ghost use Rattle.m68k_exec.specs.Sample.Private.{Changes};

use super::operands::operand;
use crate::Context;
use crate::rows::arithmetic::change_address;
use crate::rows::comparisons::compared;
use crate::rows::immediates::after_number;
use m68k_access::operands::set_part;
use m68k_access::shapes::change_data;
use m68k_alu::compute;
use md_word::{Mode, Regs, Size, Task, extend};

/// MOVE to a data register.
#[inline(never)]
#[tactic(auto, unfolding(crate::specs::Rows::Moves::move_operand, m68k_access::specs::Operands::store, m68k_access::specs::Operands::put))]
pub fn move_to_data(
    size: Size,
    source: Mode,
    number: u8,
    start: u32,
    context: &Context,
    regs: &mut Regs,
) -> bool
    requires source { IsMode source }
    requires number { number < 8 }
    ensures { Changes result (moves.move_operand size source (Data number) start regs.old) regs.old regs.new (memory_of context.now) }
{
    let flags = regs.flags();
    match operand(source, size, start.wrapping_add(2), context, regs) {
        Some(from) => {
            let out = compute(Task::Move, size, from, from, flags);
            set_part(size, number, out.value, regs);
            regs.set_flags(out.flags);
            true
        }
        None => false,
    }
}

/// MOVEA: the sign is extended, and the flags stay.
#[inline(never)]
#[tactic(auto, unfolding(crate::specs::Rows::Moves::move_address))]
pub fn move_address(
    size: Size,
    number: u8,
    mode: Mode,
    start: u32,
    context: &Context,
    regs: &mut Regs,
) -> bool
    requires number { number < 8 }
    requires mode { IsMode mode }
    ensures { Changes result (moves.move_address size number mode start regs.old) regs.old regs.new (memory_of context.now) }
{
    match operand(mode, size, start.wrapping_add(2), context, regs) {
        Some(from) => {
            regs.set_address(number, extend(from, size));
            true
        }
        None => false,
    }
}

/// TST.
#[inline(never)]
#[tactic(auto, unfolding(crate::specs::Rows::Single::tst))]
pub fn tst(size: Size, mode: Mode, start: u32, context: &Context, regs: &mut Regs) -> bool
    requires { IsMode mode }
    ensures { Changes result (single.tst size mode start regs.old) regs.old regs.new (memory_of context.now) }
{
    let flags = regs.flags();
    match operand(mode, size, start.wrapping_add(2), context, regs) {
        Some(value) => {
            let out = compute(Task::Move, size, value, value, flags);
            regs.set_flags(out.flags);
            true
        }
        None => false,
    }
}

/// OR, SUB, AND, ADD to a data register.
#[inline(never)]
#[tactic(auto, unfolding(crate::specs::Rows::Arithmetic::to_register, m68k_access::specs::Shapes::change_register))]
pub fn to_register(
    task: Task,
    size: Size,
    number: u8,
    mode: Mode,
    start: u32,
    context: &Context,
    regs: &mut Regs,
) -> bool
    requires number { number < 8 }
    requires mode { IsMode mode }
    ensures { Changes result (arithmetic.to_register task size number mode start regs.old) regs.old regs.new (memory_of context.now) }
{
    let flags = regs.flags();
    match operand(mode, size, start.wrapping_add(2), context, regs) {
        Some(value) => {
            let old = size.low(regs.register(number));
            let out = compute(task, size, value, old, flags);
            set_part(size, number, out.value, regs);
            regs.set_flags(out.flags);
            true
        }
        None => false,
    }
}

/// SUBA, ADDA: a word has its sign extended.
#[inline(never)]
#[tactic(auto, unfolding(crate::specs::Rows::Arithmetic::to_address))]
pub fn to_address(
    task: Task,
    size: Size,
    number: u8,
    mode: Mode,
    start: u32,
    context: &Context,
    regs: &mut Regs,
) -> bool
    requires number { number < 8 }
    requires mode { IsMode mode }
    ensures { Changes result (arithmetic.to_address task size number mode start regs.old) regs.old regs.new (memory_of context.now) }
{
    match operand(mode, size, start.wrapping_add(2), context, regs) {
        Some(value) => {
            let _outcome = change_address(task, extend(value, size), number, regs);
            true
        }
        None => false,
    }
}

/// CMP of a data register.
#[inline(never)]
#[tactic(auto, unfolding(crate::specs::Rows::Comparisons::cmp))]
pub fn cmp(
    size: Size,
    number: u8,
    mode: Mode,
    start: u32,
    context: &Context,
    regs: &mut Regs,
) -> bool
    requires number { number < 8 }
    requires mode { IsMode mode }
    ensures { Changes result (comparisons.cmp size number mode start regs.old) regs.old regs.new (memory_of context.now) }
{
    match operand(mode, size, start.wrapping_add(2), context, regs) {
        Some(source) => {
            let target = size.low(regs.register(number));
            let _outcome = compared(size, source, target, regs);
            true
        }
        None => false,
    }
}

/// CMPA of an address register: a word has its sign extended.
#[inline(never)]
#[tactic(auto, unfolding(crate::specs::Rows::Comparisons::cmpa))]
pub fn cmpa(
    size: Size,
    number: u8,
    mode: Mode,
    start: u32,
    context: &Context,
    regs: &mut Regs,
) -> bool
    requires number { number < 8 }
    requires mode { IsMode mode }
    ensures { Changes result (comparisons.cmpa size number mode start regs.old) regs.old regs.new (memory_of context.now) }
{
    match operand(mode, size, start.wrapping_add(2), context, regs) {
        Some(source) => {
            let target = regs.address(number);
            let _outcome = compared(Size::Long, extend(source, size), target, regs);
            true
        }
        None => false,
    }
}

/// CMPI.
#[inline(never)]
#[tactic(auto, unfolding(crate::specs::Rows::Immediates::compare_immediate, m68k_access::specs::Shapes::test_operand))]
pub fn compare_immediate(
    size: Size,
    number: u32,
    mode: Mode,
    start: u32,
    context: &Context,
    regs: &mut Regs,
) -> bool
    requires mode { IsMode mode }
    requires number { number < modulus_of size }
    ensures { Changes result (immediates.compare_immediate size number mode start regs.old) regs.old regs.new (memory_of context.now) }
{
    let flags = regs.flags();
    match operand(mode, size, after_number(size, start), context, regs) {
        Some(value) => {
            let out = compute(Task::Cmp, size, number, value, flags);
            regs.set_flags(out.flags);
            true
        }
        None => false,
    }
}

/// ADDQ, SUBQ of a register: of an address register all is changed, and no flag.
#[inline(always)]
pub fn quick(task: Task, size: Size, value: u8, mode: Mode, start: u32, regs: &mut Regs) -> bool
    requires value { value ≤ 8 }
    requires mode { IsMode mode }
    ensures { (memory : Memory) → Changes result (arithmetic.quick task size value mode start regs.old) regs.old regs.new memory }
{
    let value = u32::from(value);
    match mode {
        Mode::Data(number) => {
            let _outcome = change_data(task, size, value, number, regs);
            true
        }
        Mode::Address(number) => {
            let _outcome = change_address(task, value, number, regs);
            true
        }
        _ => false,
    }
}

/// ORI, ANDI, SUBI, ADDI, EORI of a data register.
#[inline(always)]
pub fn immediate(
    task: Task,
    size: Size,
    number: u32,
    mode: Mode,
    start: u32,
    regs: &mut Regs,
) -> bool
    requires mode { IsMode mode }
    requires number { number < modulus_of size }
    ensures { (memory : Memory) → Changes result (immediates.immediate task size number mode start regs.old) regs.old regs.new memory }
{
    match mode {
        Mode::Data(register) => {
            let _outcome = change_data(task, size, number, register, regs);
            true
        }
        _ => false,
    }
}

/// NEGX, CLR, NEG, NOT of a data register.
#[inline(always)]
pub fn unary(task: Task, size: Size, mode: Mode, start: u32, regs: &mut Regs) -> bool
    requires { IsMode mode }
    ensures { (memory : Memory) → Changes result (single.unary task size mode start regs.old) regs.old regs.new memory }
{
    match mode {
        Mode::Data(number) => {
            let _outcome = change_data(task, size, 0, number, regs);
            true
        }
        _ => false,
    }
}

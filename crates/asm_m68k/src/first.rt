ghost use Rattle.std.specs.Prelude.{◌≡◌};
ghost use Rattle.md_disasm.specs.Groups68 as groups;
ghost use Rattle.asm_m68k.specs.Coded.{IsCoded};
ghost use Rattle.asm_m68k.specs.Encoding as encoding;

use crate::codes::{
    condition_code, displacement_code, exchange, group_of, long_code, mode_code, move_size_code,
    pair_code, quick_code, size_code, target_code, task_code,
};
use crate::opcode::{
    with_bits, with_long, with_mode, with_register, with_shift, with_size, with_target, with_task,
};
use m68k_decode::Op;

/// The first word of an instruction with a number, or on a bit.
#[tactic(auto, unfolding(crate::specs::Encoding::first_word))]
fn numbers(op: Op) -> u16
    requires group { groups.IsOfNumber op }
    requires coded { IsCoded op }
    ensures { result ≡ encoding.first_word op }
{
    match op {
        Op::Immediate(task, size, _, mode) => with_size(512 * task_code(task), size, mode),
        Op::CompareImmediate(size, _, mode) => with_size(0x0c00, size, mode),
        Op::ImmediateToCcr(task, _) => with_task(0x003c, task),
        Op::ImmediateToSr(task, _) => with_task(0x007c, task),
        Op::BitByRegister(task, n, mode) => with_bits(with_register(0x0100, n), task, mode),
        Op::BitByNumber(task, _, mode) => with_bits(0x0800, task, mode),
        Op::Quick(task, size, number, mode) => with_size(
            with_register(0x5000, number % 8) + 256 * quick_code(task),
            size,
            mode,
        ),
        Op::Moveq(n, value) => with_register(0x7000, n) + u16::from(value),
        _ => unreachable!(),
    }
}

/// The first word of a move of operands, of addresses or of a list of registers.
#[tactic(auto, unfolding(crate::specs::Encoding::first_word))]
fn moves(op: Op) -> u16
    requires group { groups.IsMove op }
    requires coded { IsCoded op }
    ensures { result ≡ encoding.first_word op }
{
    match op {
        Op::MovepToRegister(size, n, r, _) => with_long(with_register(0x0108, n), size)
            + u16::from(r),
        Op::MovepToMemory(size, n, r, _) => with_long(with_register(0x0188, n), size)
            + u16::from(r),
        Op::Move(size, source, target) => with_mode(
            4096 * move_size_code(size) + 64 * target_code(target),
            source,
        ),
        Op::Movea(size, n, mode) => with_mode(
            with_register(0x0040 + 4096 * move_size_code(size), n),
            mode,
        ),
        Op::Pea(mode) => with_mode(0x4840, mode),
        Op::MovemToMemory(size, _, mode) => with_mode(with_long(0x4880, size), mode),
        Op::MovemToRegisters(size, _, mode) => with_mode(with_long(0x4c80, size), mode),
        Op::Lea(n, mode) => with_mode(with_register(0x41c0, n), mode),
        Op::Exg(x, y) => exchange(x, y),
        _ => unreachable!(),
    }
}

/// The first word of an instruction on the status or without an operand, and of what is no instruction.
#[tactic(auto, unfolding(crate::specs::Encoding::first_word))]
fn control(op: Op) -> u16
    requires group { groups.IsControl op }
    requires coded { IsCoded op }
    ensures { result ≡ encoding.first_word op }
{
    match op {
        Op::MoveFromSr(mode) => with_mode(0x40c0, mode),
        Op::MoveToCcr(mode) => with_mode(0x44c0, mode),
        Op::MoveToSr(mode) => with_mode(0x46c0, mode),
        Op::MoveToUsp(r) => 0x4e60 + u16::from(r),
        Op::MoveFromUsp(r) => 0x4e68 + u16::from(r),
        Op::Reset => 0x4e70,
        Op::Nop => 0x4e71,
        Op::Stop(_) => 0x4e72,
        Op::Rte => 0x4e73,
        Op::Rts => 0x4e75,
        Op::Trapv => 0x4e76,
        Op::Rtr => 0x4e77,
        Op::Illegal(word) => word,
        Op::LineA(word) => word,
        Op::LineF(word) => word,
        _ => unreachable!(),
    }
}

/// The first word of a branch, a jump or a trap, and of what a condition sets.
#[tactic(auto, unfolding(crate::specs::Encoding::first_word))]
fn jumps(op: Op) -> u16
    requires group { groups.IsJump op }
    requires coded { IsCoded op }
    ensures { result ≡ encoding.first_word op }
{
    match op {
        Op::Trap(number) => 0x4e40 + u16::from(number),
        Op::Jsr(mode) => with_mode(0x4e80, mode),
        Op::Jmp(mode) => with_mode(0x4ec0, mode),
        Op::Chk(n, mode) => with_mode(with_register(0x4180, n), mode),
        Op::Scc(condition, mode) => with_mode(0x50c0 + 256 * condition_code(condition), mode),
        Op::Dbcc(condition, r, _) => 0x50c8 + 256 * condition_code(condition) + u16::from(r),
        Op::Bra(displacement) => 0x6000 + displacement_code(displacement),
        Op::Bsr(displacement) => 0x6100 + displacement_code(displacement),
        Op::Bcc(condition, displacement) => 0x6000
            + 256 * condition_code(condition)
            + displacement_code(displacement),
        _ => unreachable!(),
    }
}

/// The first word of an instruction on one operand, and of a shift.
#[tactic(auto, unfolding(crate::specs::Encoding::first_word))]
fn operands(op: Op) -> u16
    requires group { groups.IsOnOperand op }
    requires coded { IsCoded op }
    ensures { result ≡ encoding.first_word op }
{
    match op {
        Op::Unary(task, size, mode) => with_size(with_task(0x4000, task), size, mode),
        Op::Nbcd(mode) => with_mode(0x4800, mode),
        Op::Swap(r) => 0x4840 + u16::from(r),
        Op::Ext(size, r) => with_long(0x4880, size) + u16::from(r),
        Op::Tst(size, mode) => with_size(0x4a00, size, mode),
        Op::Tas(mode) => with_mode(0x4ac0, mode),
        Op::Link(r, _) => 0x4e50 + u16::from(r),
        Op::Unlk(r) => 0x4e58 + u16::from(r),
        Op::ShiftByNumber(task, size, number, r) => with_shift(
            with_register(0xe000, number % 8),
            task,
            size,
            r,
        ),
        Op::ShiftByRegister(task, size, n, r) => with_shift(
            with_register(0xe020, n),
            task,
            size,
            r,
        ),
        Op::ShiftMemory(task, mode) => 0xe0c0
            + 512 * (task_code(task) % 4)
            + 256 * (task_code(task) / 4)
            + mode_code(mode),
        _ => unreachable!(),
    }
}

/// The first word of a sum, a difference, a comparison, a product or a quotient.
#[tactic(auto, unfolding(crate::specs::Encoding::first_word))]
fn sums(op: Op) -> u16
    requires group { groups.IsSum op }
    requires coded { IsCoded op }
    ensures { result ≡ encoding.first_word op }
{
    match op {
        Op::Divu(n, mode) => with_mode(with_register(0x80c0, n), mode),
        Op::Divs(n, mode) => with_mode(with_register(0x81c0, n), mode),
        Op::Decimal(task, source, target) => with_target(0x0100 + group_of(task), target)
            + pair_code(source),
        Op::Extended(task, size, source, target) => with_target(0x0100 + group_of(task), target)
            + 64 * size_code(size)
            + pair_code(source),
        Op::ToRegister(task, size, n, mode) => with_size(
            with_register(group_of(task), n),
            size,
            mode,
        ),
        Op::ToMemory(task, size, n, mode) => with_size(
            with_register(0x0100 + group_of(task), n),
            size,
            mode,
        ),
        Op::ToAddress(task, size, n, mode) => with_mode(
            with_register(0x00c0 + group_of(task), n) + 256 * long_code(size),
            mode,
        ),
        Op::Cmp(size, n, mode) => with_size(with_register(0xb000, n), size, mode),
        Op::Cmpa(size, n, mode) => with_mode(
            with_register(0xb0c0, n) + 256 * long_code(size),
            mode,
        ),
        Op::Eor(size, n, mode) => with_size(with_register(0xb100, n), size, mode),
        Op::Cmpm(size, n, r) => with_register(0xb108, n) + 64 * size_code(size) + u16::from(r),
        Op::Mulu(n, mode) => with_mode(with_register(0xc0c0, n), mode),
        Op::Muls(n, mode) => with_mode(with_register(0xc1c0, n), mode),
        _ => unreachable!(),
    }
}

/// The first word of an instruction.
pub(crate) fn first_word(op: Op) -> u16
    requires { IsCoded op }
    ensures { result ≡ encoding.first_word op }
{
    match op {
        Op::Immediate(..)
        | Op::CompareImmediate(..)
        | Op::ImmediateToCcr(..)
        | Op::ImmediateToSr(..)
        | Op::BitByRegister(..)
        | Op::BitByNumber(..)
        | Op::Quick(..)
        | Op::Moveq(..) => numbers(op),
        Op::MovepToRegister(..)
        | Op::MovepToMemory(..)
        | Op::Move(..)
        | Op::Movea(..)
        | Op::Pea(..)
        | Op::MovemToMemory(..)
        | Op::MovemToRegisters(..)
        | Op::Lea(..)
        | Op::Exg(..) => moves(op),
        Op::MoveFromSr(..)
        | Op::MoveToCcr(..)
        | Op::MoveToSr(..)
        | Op::MoveToUsp(..)
        | Op::MoveFromUsp(..)
        | Op::Reset
        | Op::Nop
        | Op::Stop(..)
        | Op::Rte
        | Op::Rts
        | Op::Trapv
        | Op::Rtr
        | Op::Illegal(..)
        | Op::LineA(..)
        | Op::LineF(..) => control(op),
        Op::Trap(..)
        | Op::Jsr(..)
        | Op::Jmp(..)
        | Op::Chk(..)
        | Op::Scc(..)
        | Op::Dbcc(..)
        | Op::Bra(..)
        | Op::Bsr(..)
        | Op::Bcc(..) => jumps(op),
        Op::Unary(..)
        | Op::Nbcd(..)
        | Op::Swap(..)
        | Op::Ext(..)
        | Op::Tst(..)
        | Op::Tas(..)
        | Op::Link(..)
        | Op::Unlk(..)
        | Op::ShiftByNumber(..)
        | Op::ShiftByRegister(..)
        | Op::ShiftMemory(..) => operands(op),
        Op::Divu(..)
        | Op::Divs(..)
        | Op::Decimal(..)
        | Op::Extended(..)
        | Op::ToRegister(..)
        | Op::ToMemory(..)
        | Op::ToAddress(..)
        | Op::Cmp(..)
        | Op::Cmpa(..)
        | Op::Eor(..)
        | Op::Cmpm(..)
        | Op::Mulu(..)
        | Op::Muls(..) => sums(op),
    }
}

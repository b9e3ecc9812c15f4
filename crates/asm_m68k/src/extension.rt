ghost use Rattle.std.specs.Prelude.{◌≡◌, ◌+◌, ◌<◌, ◌≤◌, ◌^◌, ◌++◌};
ghost use Rattle.arrayvec.specs.ArrayVec.{array_vec_len};
ghost use Rattle.md_word.specs.Modes.{IsMode};
ghost use Rattle.md_word.specs.Width.{modulus_of};
ghost use Rattle.m68k_decode.specs.Operands.{IsOperand};
ghost use Rattle.asm_m68k.specs.Coded.{IsCoded};
ghost use Rattle.asm_m68k.specs.Encoding as encoding;

use arrayvec::ArrayVec;
use m68k_decode::{Displacement, Op};
use md_word::{Mode, Size};

/// The words of an instruction: at most five.
pub type Words = ArrayVec<u16, 5>;

/// Appends a number of a size.
fn put_number(words: &mut Words, size: Size, n: u32)
    requires room { array_vec_len words.old ≤ 3 }
    requires fits { n < modulus_of size }
    ensures items { words.new.items ≡ words.old.items ++ encoding.number_words size n }
    ensures most { array_vec_len words.new ≤ array_vec_len words.old + 2 }
{
    match size {
        Size::Byte | Size::Word => words.push((n % 65536) as u16),
        Size::Long => {
            words.push((n / 65536) as u16);
            words.push((n % 65536) as u16)
        }
    }
}

/// A brief extension word.
fn brief(index: u8, long: bool, by: u8) -> u16
    requires { index < 16 }
    ensures { result ≡ encoding.brief index long by }
{
    4096 * u16::from(index) + 2048 * u16::from(long) + u16::from(by)
}

/// Appends the extension words of a mode.
#[tactic(auto, unfolding(crate::specs::Encoding::mode_words))]
fn put_mode(words: &mut Words, size: Size, mode: Mode)
    requires room { array_vec_len words.old ≤ 3 }
    requires operand { IsOperand size mode }
    ensures items { words.new.items ≡ words.old.items ++ encoding.mode_words size mode }
    ensures most { array_vec_len words.new ≤ array_vec_len words.old + 2 }
{
    match mode {
        Mode::Data(_) | Mode::Address(_) | Mode::Indirect(_) | Mode::PostInc(_) | Mode::PreDec(_) =>
            {}
        Mode::Displaced(_, by) => words.push(by),
        Mode::Indexed(_, index, long, by) => words.push(brief(index, long, by)),
        Mode::AbsShort(at) => words.push(at),
        Mode::AbsLong(at) => put_number(words, Size::Long, at),
        Mode::PcDisplaced(by) => words.push(by),
        Mode::PcIndexed(index, long, by) => words.push(brief(index, long, by)),
        Mode::Immediate(n) => put_number(words, size, n),
    }
}

/// Appends the extension word of a branch, where it has one.
fn put_displacement(words: &mut Words, displacement: Displacement)
    requires { array_vec_len words.old ≤ 3 }
    ensures items { words.new.items ≡ words.old.items ++ encoding.displacement_words displacement }
{
    match displacement {
        Displacement::Byte(_) => {}
        Displacement::Word(by) => words.push(by),
    }
}

/// Appends the words after the first.
#[tactic(auto, unfolding(crate::specs::Encoding::extension))]
pub(crate) fn put_extension(words: &mut Words, op: Op)
    requires room { array_vec_len words.old ≤ 1 }
    requires operands { IsCoded op }
    ensures { words.new.items ≡ words.old.items ++ encoding.extension op }
{
    match op {
        Op::Immediate(_, size, n, mode) | Op::CompareImmediate(size, n, mode) => {
            put_number(words, size, n);
            put_mode(words, size, mode)
        }
        Op::ImmediateToCcr(_, n) => words.push(u16::from(n)),
        Op::ImmediateToSr(_, n) | Op::Stop(n) => words.push(n),
        Op::BitByRegister(_, _, mode) | Op::Nbcd(mode) | Op::Tas(mode) | Op::Scc(_, mode) => {
            put_mode(words, Size::Byte, mode)
        }
        Op::BitByNumber(_, n, mode) => {
            words.push(u16::from(n));
            put_mode(words, Size::Byte, mode)
        }
        Op::MovepToRegister(_, _, _, by)
        | Op::MovepToMemory(_, _, _, by)
        | Op::Link(_, by)
        | Op::Dbcc(_, _, by) => words.push(by),
        Op::Move(size, source, target) => {
            put_mode(words, size, source);
            put_mode(words, size, target)
        }
        Op::Movea(size, _, mode)
        | Op::Unary(_, size, mode)
        | Op::Tst(size, mode)
        | Op::Quick(_, size, _, mode)
        | Op::ToRegister(_, size, _, mode)
        | Op::ToMemory(_, size, _, mode)
        | Op::ToAddress(_, size, _, mode)
        | Op::Cmp(size, _, mode)
        | Op::Cmpa(size, _, mode)
        | Op::Eor(size, _, mode) => put_mode(words, size, mode),
        Op::MoveFromSr(mode)
        | Op::MoveToCcr(mode)
        | Op::MoveToSr(mode)
        | Op::Chk(_, mode)
        | Op::Divu(_, mode)
        | Op::Divs(_, mode)
        | Op::Mulu(_, mode)
        | Op::Muls(_, mode)
        | Op::ShiftMemory(_, mode) => put_mode(words, Size::Word, mode),
        Op::Pea(mode) | Op::Jsr(mode) | Op::Jmp(mode) | Op::Lea(_, mode) => {
            put_mode(words, Size::Long, mode)
        }
        Op::MovemToMemory(size, list, mode) | Op::MovemToRegisters(size, list, mode) => {
            words.push(list);
            put_mode(words, size, mode)
        }
        Op::Bra(displacement) | Op::Bsr(displacement) | Op::Bcc(_, displacement) => {
            put_displacement(words, displacement)
        }
        Op::Swap(_)
        | Op::Ext(_, _)
        | Op::Trap(_)
        | Op::Unlk(_)
        | Op::MoveToUsp(_)
        | Op::MoveFromUsp(_)
        | Op::Reset
        | Op::Nop
        | Op::Rte
        | Op::Rts
        | Op::Trapv
        | Op::Rtr
        | Op::Moveq(_, _)
        | Op::Decimal(_, _, _)
        | Op::Extended(_, _, _, _)
        | Op::Cmpm(_, _, _)
        | Op::Exg(_, _)
        | Op::ShiftByNumber(_, _, _, _)
        | Op::ShiftByRegister(_, _, _, _)
        | Op::Illegal(_)
        | Op::LineA(_)
        | Op::LineF(_) => {}
    }
}

ghost use Rattle.std.specs.Prelude.{IfOk, IsTrue};
ghost use Rattle.md_word.specs.Modes.{IsMode};

use crate::m68k::arithmetic::{computed, divided, flags_of};
use crate::m68k::asked::Asked;
use crate::m68k::registers::value_of;
use crate::m68k::sample::sampled;
use m68k_decode::{Op, decode};
use m68k_ea::{Place, place, step, stepped};
use m68k_except::{Frame, frame};
use m68k_time::clocks;
use md_word::{Mode, Regs, Size};
use row_lines::{RowError, decimal_of, first_word, long_of, parted, text_of};
use std::alloc::{AllocError, Global};

/// The answer to a question that concerns no chip.
pub fn answer_of(
    alloc: Global,
    regs: &Regs,
    asked: &str,
    wanted: &str,
) -> Result<String, RowError> {
    let (verb, rest) = first_word(asked);
    match verb {
        "clocks" => clocks_of(alloc, regs, rest),
        "decode" => kind_of(alloc, regs, rest),
        "illegal" => illegal(alloc, regs, rest),
        "frame" => frame_of(alloc, regs, rest),
        "DIVU" => divided(alloc, false, rest),
        "DIVS" => divided(alloc, true, rest),
        "flags" => flags_of(alloc, rest),
        _ => match verb.split_once('.') {
            Some((name, size)) => sized(alloc, regs, name, size, rest),
            None => sampled(alloc, regs, asked, wanted),
        },
    }
}

/// The answer to a question whose verb has a size.
fn sized(
    alloc: Global,
    regs: &Regs,
    name: &str,
    size: &str,
    rest: &str,
) -> Result<String, RowError> {
    let size = match size {
        "B" => Size::Byte,
        "W" => Size::Word,
        "L" => Size::Long,
        _ => return Err(RowError::NoSuchLine),
    };
    match name {
        "place" => place_of(alloc, regs, size, rest),
        "step" => step_of(alloc, regs, size, rest),
        _ => computed(alloc, name, size, rest),
    }
}

fn clocks_of(alloc: Global, regs: &Regs, rest: &str) -> Result<String, RowError> {
    let asked = Asked::of(regs, rest)?;
    let taken = clocks(&decode(&asked.words).op, asked.spent);
    decimal_of(alloc, "", u64::from(taken))
}

/// What is no instruction: which of the three kinds, its first word, and its bytes.
fn kind_of(alloc: Global, regs: &Regs, rest: &str) -> Result<String, RowError> {
    let asked = Asked::of(regs, rest)?;
    let decoded = decode(&asked.words);
    let (kind, word) = match decoded.op {
        Op::Illegal(word) => ("illegal", word),
        Op::LineA(word) => ("line A", word),
        Op::LineF(word) => ("line F", word),
        _ => ("an instruction", asked.words[0]),
    };
    Ok(format!(in alloc; "{kind} {word:04X} of {} bytes", decoded.length)?)
}

/// How many first words of a range are illegal.
fn illegal(alloc: Global, regs: &Regs, rest: &str) -> Result<String, RowError> {
    let asked = Asked::of(regs, rest)?;
    if asked.count != 2 || asked.words[0] > asked.words[1] {
        return Err(RowError::NoSuchLine);
    }
    let mut sum = 0u64;
    for word in asked.words[0]..=asked.words[1] {
        if let Op::Illegal(_) = decode(&[word, 0, 0, 0, 0]).op {
            sum = sum.wrapping_add(1);
        }
    }
    decimal_of(alloc, "", sum)
}

fn is_mode(mode: Mode) -> bool
    ensures { IsTrue result → IsMode mode }
{
    match mode {
        Mode::Data(n) | Mode::Address(n) | Mode::Indirect(n) => n < 8,
        Mode::PostInc(n) | Mode::PreDec(n) | Mode::Displaced(n, _) => n < 8,
        Mode::Indexed(n, index, _, _) => n < 8 && index < 16,
        Mode::PcIndexed(index, _, _) => index < 16,
        Mode::AbsShort(_) | Mode::AbsLong(_) => true,
        Mode::PcDisplaced(_) | Mode::Immediate(_) => true,
    }
}

/// The source of MOVE.
fn source_of(words: &[u16; 5]) -> Result<Mode, RowError>
    ensures { IfOk result (λ mode. IsMode mode) }
{
    match decode(words).op {
        Op::Move(_, mode, _) if is_mode(mode) => Ok(mode),
        _ => Err(RowError::NoSuchLine),
    }
}

fn place_of(alloc: Global, regs: &Regs, size: Size, rest: &str) -> Result<String, RowError> {
    let asked = Asked::of(regs, rest)?;
    let mode = source_of(&asked.words)?;
    let (kind, value) = match place(mode, size, &asked.regs, asked.regs.pc) {
        Place::Register(number) => ("register ", u32::from(number)),
        Place::Memory(at) => ("", at),
        Place::Immediate(value) => ("#", value),
        Place::Odd(at) => ("odd ", at),
    };
    long_of(alloc, kind, value)
}

/// A register after a step, by both functions.
fn steps_of(asked: &Asked, size: Size, name: &str) -> Result<(u32, u32), RowError> {
    let mode = source_of(&asked.words)?;
    let mut moved = asked.regs;
    step(mode, size, &mut moved);
    let other = stepped(mode, size, &asked.regs);
    Ok((value_of(&moved, name)?, value_of(&other, name)?))
}

fn step_of(alloc: Global, regs: &Regs, size: Size, rest: &str) -> Result<String, RowError> {
    let (name, rest) = parted(rest, ' ')?;
    let (value, other) = steps_of(&Asked::of(regs, rest)?, size, name)?;
    if value == other {
        return long_of(alloc, "", value);
    }
    Ok(format!(in alloc; "{value:08X}, and by stepped {other:08X}")?)
}

/// The words that an exception pushes.
fn frame_of(alloc: Global, regs: &Regs, rest: &str) -> Result<String, RowError> {
    let asked = Asked::of(regs, rest)?;
    let found = frame(
        asked.spent.cause,
        asked.vector,
        &asked.regs,
        asked.words[0],
        asked.address,
        asked.is_read,
    );
    match found {
        Frame::Halted => text_of(alloc, "halted"),
        Frame::Words(words) => words_reported(alloc, words.as_slice()),
    }
}

fn words_reported(alloc: Global, words: &[u16]) -> Result<String, RowError> {
    let mut text = String::new(alloc);
    put_words(&mut text, words)?;
    text_of(alloc, text.trim_start())
}

fn put_words(text: &mut String, words: &[u16]) -> Result<(), AllocError> {
    for word in words {
        write!(text, " {word:04X}")?;
    }
    Ok(())
}

ghost use Rattle.std.specs.Prelude.{◌<◌, IfOk};
ghost use Rattle.md_word.specs.Width.{modulus_of};

use m68k_alu::{Out, Quotient, compute, divide};
use md_word::{Flags, Size, Task};
use row_lines::{RowError, long, long_of, parted, readable, text_of, word};
use std::alloc::{AllocError, Global};

static TASKS: [(&str, Task); 33] = [
    ("ABCD", Task::Abcd),
    ("ADD", Task::Add),
    ("ADDX", Task::Addx),
    ("AND", Task::And),
    ("ASL", Task::Asl),
    ("ASR", Task::Asr),
    ("BCHG", Task::Bchg),
    ("BCLR", Task::Bclr),
    ("BSET", Task::Bset),
    ("BTST", Task::Btst),
    ("CLR", Task::Clr),
    ("CMP", Task::Cmp),
    ("EOR", Task::Eor),
    ("EXT", Task::Ext),
    ("LSL", Task::Lsl),
    ("LSR", Task::Lsr),
    ("MOVE", Task::Move),
    ("MULS", Task::Muls),
    ("MULU", Task::Mulu),
    ("NBCD", Task::Nbcd),
    ("NEG", Task::Neg),
    ("NEGX", Task::Negx),
    ("NOT", Task::Not),
    ("OR", Task::Or),
    ("ROL", Task::Rol),
    ("ROR", Task::Ror),
    ("ROXL", Task::Roxl),
    ("ROXR", Task::Roxr),
    ("SBCD", Task::Sbcd),
    ("SUB", Task::Sub),
    ("SUBX", Task::Subx),
    ("SWAP", Task::Swap),
    ("TAS", Task::Tas),
];

fn task_of(name: &str) -> Result<Task, RowError> {
    for (known, task) in &TASKS {
        if *known == name {
            return Ok(*task);
        }
    }
    Err(RowError::NoSuchLine)
}

/// The condition codes as the status register has them: X, N, Z, V, C.
fn codes(text: &str) -> Result<Flags, RowError> {
    let bits = readable(u8::from_str_radix(text, 2))?;
    if bits > 0b11111 {
        return Err(RowError::NoSuchLine);
    }
    Ok(Flags {
        x: bits >> 4 & 1 == 1,
        n: bits >> 3 & 1 == 1,
        z: bits >> 2 & 1 == 1,
        v: bits >> 1 & 1 == 1,
        c: bits & 1 == 1,
    })
}

fn put_codes(text: &mut String, flags: Flags) -> Result<(), AllocError> {
    for is_set in [flags.x, flags.n, flags.z, flags.v, flags.c] {
        text.push(if is_set { '1' } else { '0' })?;
    }
    Ok(())
}

/// A value of a size.
fn operand(text: &str, size: Size) -> Result<u32, RowError>
    ensures { IfOk result (λ value. value < modulus_of size) }
{
    let value = long(text)?;
    if u64::from(value) >= size.modulus() {
        return Err(RowError::NoSuchLine);
    }
    Ok(value)
}

/// The result of an operation, and its condition codes.
pub fn computed(alloc: Global, name: &str, size: Size, rest: &str) -> Result<String, RowError> {
    let task = task_of(name)?;
    let (source, rest) = parted(rest, ' ')?;
    let (target, before) = parted(rest, ' ')?;
    let (source, target) = (operand(source, size)?, operand(target, size)?);
    Ok(reported(alloc, compute(task, size, source, target, codes(before)?))?)
}

fn reported(alloc: Global, out: Out) -> Result<String, AllocError> {
    let mut text = format!(in alloc; "{:08X} ", out.value)?;
    put_codes(&mut text, out.flags)?;
    Ok(text)
}

/// What a division by a word gives: the remainder and the quotient, or that it is by 0 or overflows.
pub fn divided(alloc: Global, signed: bool, rest: &str) -> Result<String, RowError> {
    let (source, target) = parted(rest, ' ')?;
    match divide(signed, word(source)?, long(target)?) {
        Quotient::Value(value) => long_of(alloc, "", value),
        Quotient::Zero => text_of(alloc, "by zero"),
        Quotient::Overflow => text_of(alloc, "overflow"),
    }
}

/// The condition codes after a division that gave this.
pub fn flags_of(alloc: Global, rest: &str) -> Result<String, RowError> {
    let (gave, before) = parted(rest, ' ')?;
    let quotient = match gave {
        "zero" => Quotient::Zero,
        "overflow" => Quotient::Overflow,
        _ => Quotient::Value(long(gave)?),
    };
    let mut text = String::new(alloc);
    put_codes(&mut text, quotient.flags(codes(before)?))?;
    Ok(text)
}

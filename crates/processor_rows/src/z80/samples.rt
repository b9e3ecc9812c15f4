// Samples: an instruction or an interrupt, with what its shared reads answer.
use crate::z80::registers::{Values, registers_of, tell, values_of};
use crate::z80::setting::Setting;
use arrayvec::ArrayVec;
use md_word::Request80;
use rom_header::Cart;
use row_lines::{RowError, byte, parted};
use std::alloc::{AllocError, Global};
use std::fmt::Write;
use z80_exec::{Finish80, Progress80, Regs80, Step80, go};

fn value_in(read: &str) -> Result<u8, RowError> {
    let (_, value) = parted(read, '=')?;
    byte(value)
}

/// What the shared read of this number answers, of those that are wanted, `r:4000=58 ..`.
fn read_in(wanted: &str, number: usize) -> Result<u8, RowError> {
    let mut left = number;
    for word in wanted.split(' ') {
        if word.starts_with("r:") {
            if left == 0 {
                return value_in(word);
            }
            left -= 1;
        }
    }
    Err(RowError::NoSuchName)
}

fn put_access(text: &mut String, kind: char, at: u16, value: u8) -> Result<(), AllocError> {
    write!(text, "{kind}:{at:04X}={value:02X} ")
}

/// Writes out a shared access, and gives its answer.
fn tell_access(
    text: &mut String,
    request: &Request80,
    wanted: &str,
    reads: &mut usize,
) -> Result<u8, RowError> {
    match request {
        Request80::Read(at) => {
            let value = read_in(wanted, *reads)?;
            *reads = reads.wrapping_add(1);
            put_access(text, 'r', *at, value)?;
            Ok(value)
        }
        Request80::Write(at, value) => {
            put_access(text, 'w', *at, *value)?;
            Ok(0)
        }
        _ => Err(RowError::NoSuchName),
    }
}

/// The registers after a sample where nothing is said of them: after an instruction PC and R have advanced.
fn usual(setting: &Setting) -> Values {
    let mut values = setting.values;
    if setting.cause == 0 {
        values[11] = setting.next;
        values[13] = values[13].wrapping_add(1) % 0x100;
    }
    values
}

fn put_writes(text: &mut String, writes: &[(u16, u8)]) -> Result<(), AllocError> {
    for (at, value) in writes {
        write!(text, ".{at:04X}={value:02X} ")?;
    }
    Ok(())
}

fn put_finish(text: &mut String, finish: &Finish80) -> Result<(), AllocError> {
    text.push_str(if finish.halted { "HALT " } else { "" })?;
    text.push_str(if finish.after_ei { "EI " } else { "" })?;
    write!(text, "T={}", finish.t)
}

/// Writes out what a sample results in.
fn tell_finish(
    text: &mut String,
    finish: &Finish80,
    regs: &Regs80,
    writes: &[(u16, u8)],
    setting: &Setting,
) -> Result<(), AllocError> {
    put_writes(text, writes)?;
    tell(text, &values_of(regs), &usual(setting))?;
    put_finish(text, finish)
}

/// What a sample results in, which runs with no answer, one, and so on, where its shared reads answer as is wanted.
/// `NoSuchName` where it has not ended after five answers.
pub fn sample(
    alloc: Global,
    cart: &Cart,
    setting: &Setting,
    wanted: &str,
) -> Result<String, RowError> {
    let mut text = String::new(alloc);
    let mut regs = registers_of(&setting.values);
    let mut answers = ArrayVec::new();
    let mut progress = Progress80::new();
    let mut reads = 0;
    for _ in 0..5 {
        match go(
            &mut regs,
            cart,
            &setting.parcel,
            &answers,
            setting.cause,
            &mut progress,
        ) {
            Step80::Need(waiting) => {
                let request = waiting.request();
                let answer = tell_access(&mut text, &request, wanted, &mut reads)?;
                if !answers.is_full() {
                    answers.push(answer);
                }
            }
            Step80::Done(finish) => {
                let writes = progress.writes.as_slice();
                tell_finish(&mut text, &finish, &regs, writes, setting)?;
                return Ok(text);
            }
        }
    }
    Err(RowError::NoSuchName)
}

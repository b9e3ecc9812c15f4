ghost use Rattle.std.specs.Prelude.{◌≡◌, ◌≤◌, length, string_bytes, IfOk};
ghost use Rattle.md_disasm.specs.Appends.{Appends};
ghost use Rattle.md_disasm.specs.Shown68.{shown68};
ghost use Rattle.md_disasm.specs.Texts68 as texts;

use crate::names68::size_name;
use crate::operand68::{Operand68, put_operand};
use crate::rows68::row_of;
use crate::syntax68::Syntax68;
use m68k_decode::Decoded;
use md_word::{NoMemory, Size};
use std::alloc::Global;

/// Appends the letter of a size, where there is one. It fails where there is no memory for it.
fn put_size(text: &mut String, size: Option<Size>) -> Result<(), NoMemory>
    ensures { Appends result (string_bytes text.old) (string_bytes text.new) (texts.size_text size) }
{
    match size {
        Some(size) => text.push_str(size_name(size)),
        None => Ok(()),
    }
}

/// Appends an operand after its separator, where there is one.
/// It fails where there is no memory for it.
fn put_led(text: &mut String, mark: &str, operand: Operand68) -> Result<(), NoMemory>
    ensures { Appends result (string_bytes text.old) (string_bytes text.new) (texts.led mark.now operand) }
{
    match operand {
        Operand68::Nothing => Ok(()),
        _ => {
            text.push_str(mark)?;
            put_operand(text, operand)
        }
    }
}

/// Appends the text of a row. It fails where there is no memory for it.
fn put_row(text: &mut String, row: Syntax68) -> Result<(), NoMemory>
    ensures { Appends result (string_bytes text.old) (string_bytes text.new) (texts.row_text (shown68 row)) }
{
    text.push_str(row.mnemonic)?;
    text.push_str(row.ending)?;
    put_size(text, row.size)?;
    put_led(text, " ", row.first)?;
    put_led(text, ",", row.second)
}

/// The text of an instruction of the 68000 at an address, of at most 68 characters.
///
/// Names are those of the M68000 Programmer's Reference Manual, section 4, in lower case, with the
/// letter of the size where the instruction has several, and the source is first. A number has a
/// dollar sign and all its hexadecimal digits, a displacement is an unsigned number, and a branch
/// shows the address that it goes to. What is no instruction is `dc.w` with its first word. It
/// fails only where there is no memory for the text.
pub fn text68(alloc: Global, op: &Decoded, at: u32) -> Result<String, NoMemory>
    ensures text { IfOk result (λ text. string_bytes text ≡ texts.text_of op.now at) }
    ensures short { IfOk result (λ text. length (string_bytes text) ≤ 68) }
{
    let mut text = String::new(alloc);
    put_row(&mut text, row_of(op.op, at))?;
    Ok(text)
}

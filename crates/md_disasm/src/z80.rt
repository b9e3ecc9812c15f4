ghost use Rattle.std.specs.Prelude.{◌≡◌, ◌≤◌, length, string_bytes, IfOk};
ghost use Rattle.md_disasm.specs.Appends.{Appends};
ghost use Rattle.md_disasm.specs.Shown80.{shown80};
ghost use Rattle.md_disasm.specs.Texts80 as texts;

use crate::operand80::{Operand80, put_operand};
use crate::rows80::row_of;
use crate::syntax80::Syntax80;
use md_word::NoMemory;
use std::alloc::Global;
use z80_decode::Decoded80;

/// Appends an operand after its separator, where there is one.
/// It fails where there is no memory for it.
fn put_led(text: &mut String, mark: &str, operand: Operand80) -> Result<(), NoMemory>
    ensures { Appends result (string_bytes text.old) (string_bytes text.new) (texts.led mark.now operand) }
{
    match operand {
        Operand80::Nothing => Ok(()),
        _ => {
            text.push_str(mark)?;
            put_operand(text, operand)
        }
    }
}

/// Appends the text of a row. It fails where there is no memory for it.
fn put_row(text: &mut String, row: Syntax80) -> Result<(), NoMemory>
    ensures { Appends result (string_bytes text.old) (string_bytes text.new) (texts.row_text (shown80 row)) }
{
    text.push_str(row.name)?;
    put_led(text, " ", row.first)?;
    put_led(text, ",", row.second)
}

/// The text of an instruction of the Z80 at an address, of at most 20 characters.
///
/// Names and registers are those of Zilog UM0080, "Z80 Instruction Description", in lower case. A
/// number has a dollar sign and all its hexadecimal digits, a displacement is an unsigned byte, and a
/// relative jump shows the address that it goes to. What is no instruction is `db` with its bytes.
/// It fails only where there is no memory for the text.
pub fn text80(alloc: Global, op: &Decoded80, at: u16) -> Result<String, NoMemory>
    ensures text { IfOk result (λ text. string_bytes text ≡ texts.text_of op.now at) }
    ensures short { IfOk result (λ text. length (string_bytes text) ≤ 20) }
{
    let mut text = String::new(alloc);
    put_row(&mut text, row_of(op.op, at))?;
    Ok(text)
}

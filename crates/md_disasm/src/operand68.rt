ghost use Rattle.std.specs.Prelude.{◌≡◌, ◌++◌, [], codes, string_bytes};
ghost use Rattle.md_disasm.specs.Appends.{Appends};
ghost use Rattle.md_disasm.specs.Digits.{marked_byte, marked_digit, marked_word};
ghost use Rattle.md_disasm.specs.Operands68 as operands;

use crate::digits::{put_marked_byte, put_marked_digit, put_marked_long, put_marked_word};
use crate::list68::put_list;
use m68k_decode::Condition;
use md_word::{Mode, NoMemory, Size};

/// An operand of the 68000's assembler.
#[derive(Clone, Copy)]
pub enum Operand68 {
    /// No operand.
    Nothing,
    /// An addressing mode, with the size of a number in the instruction.
    Place(Size, Mode),
    /// A data register.
    Data(u8),
    /// An address register.
    Address(u8),
    /// A register of sixteen: 0 to 7 the data registers, 8 to 15 the address registers.
    Either(u8),
    Sr,
    Ccr,
    Usp,
    /// A number of one digit.
    Digit(u8),
    /// A number, with its size.
    Number(Size, u32),
    /// The address that a branch goes to.
    Target(u32),
    /// The word of what is no instruction.
    Opcode(u16),
    /// A list of registers, and whether it is reversed: then bit 0 is A7.
    Registers(bool, u16),
}

pub(crate) fn condition_name(condition: Condition) -> &'static str
    ensures { result.now ≡ operands.condition_name condition }
{
    match condition {
        Condition::True => "t",
        Condition::False => "f",
        Condition::High => "hi",
        Condition::LowOrSame => "ls",
        Condition::CarryClear => "cc",
        Condition::CarrySet => "cs",
        Condition::NotEqual => "ne",
        Condition::Equal => "eq",
        Condition::OverflowClear => "vc",
        Condition::OverflowSet => "vs",
        Condition::Plus => "pl",
        Condition::Minus => "mi",
        Condition::GreaterOrEqual => "ge",
        Condition::LessThan => "lt",
        Condition::GreaterThan => "gt",
        Condition::LessOrEqual => "le",
    }
}

/// Appends the name of a register of sixteen. It fails where there is no memory for it.
#[tactic(auto, unfolding(crate::specs::Operands68::register_name))]
pub(crate) fn put_register(text: &mut String, n: u8) -> Result<(), NoMemory>
    ensures { Appends result (string_bytes text.old) (string_bytes text.new) (operands.register_name n) }
{
    let letter = if n < 8 { "d" } else { "a" };
    put_marked_digit(text, letter, n & 7, "")
}

/// Appends an index register, and the bracket after it. It fails where there is no memory for it.
#[tactic(auto, unfolding(crate::specs::Operands68::index_text))]
fn put_index(text: &mut String, index: u8, long: bool) -> Result<(), NoMemory>
    ensures { Appends result (string_bytes text.old) (string_bytes text.new) (operands.index_text index long) }
{
    put_register(text, index)?;
    text.push_str(if long { ".l)" } else { ".w)" })
}

/// Appends a number in the instruction. It fails where there is no memory for it.
fn put_number(text: &mut String, size: Size, n: u32) -> Result<(), NoMemory>
    ensures { Appends result (string_bytes text.old) (string_bytes text.new) (operands.number_text size n) }
{
    match size {
        Size::Byte => put_marked_byte(text, "#$", (n & 0xff) as u8, ""),
        Size::Word => put_marked_word(text, "#$", (n & 0xffff) as u16, ""),
        Size::Long => put_marked_long(text, "#$", n, ""),
    }
}

fn put_displaced(text: &mut String, n: u8, displacement: u16) -> Result<(), NoMemory>
    ensures { Appends result (string_bytes text.old) (string_bytes text.new)
        (marked_word (codes "$") displacement (codes "(a") ++ marked_digit [] n (codes ")")) }
{
    put_marked_word(text, "$", displacement, "(a")?;
    put_marked_digit(text, "", n, ")")
}

fn put_indexed(
    text: &mut String,
    n: u8,
    index: u8,
    long: bool,
    displacement: u8,
) -> Result<(), NoMemory>
    ensures { Appends result (string_bytes text.old) (string_bytes text.new)
        (marked_byte (codes "$") displacement (codes "(a") ++ marked_digit [] n (codes ",") ++ operands.index_text index long) }
{
    put_marked_byte(text, "$", displacement, "(a")?;
    put_marked_digit(text, "", n, ",")?;
    put_index(text, index, long)
}

fn put_pc_indexed(
    text: &mut String,
    index: u8,
    long: bool,
    displacement: u8,
) -> Result<(), NoMemory>
    ensures { Appends result (string_bytes text.old) (string_bytes text.new)
        (marked_byte (codes "$") displacement (codes "(pc,") ++ operands.index_text index long) }
{
    put_marked_byte(text, "$", displacement, "(pc,")?;
    put_index(text, index, long)
}

/// Appends the text of an addressing mode. It fails where there is no memory for it.
fn put_mode(text: &mut String, size: Size, mode: Mode) -> Result<(), NoMemory>
    ensures { Appends result (string_bytes text.old) (string_bytes text.new) (operands.mode_text size mode) }
{
    match mode {
        Mode::Data(n) => put_marked_digit(text, "d", n, ""),
        Mode::Address(n) => put_marked_digit(text, "a", n, ""),
        Mode::Indirect(n) => put_marked_digit(text, "(a", n, ")"),
        Mode::PostInc(n) => put_marked_digit(text, "(a", n, ")+"),
        Mode::PreDec(n) => put_marked_digit(text, "-(a", n, ")"),
        Mode::Displaced(n, displacement) => put_displaced(text, n, displacement),
        Mode::Indexed(n, index, long, displacement) => {
            put_indexed(text, n, index, long, displacement)
        }
        Mode::AbsShort(address) => put_marked_word(text, "$", address, ".w"),
        Mode::AbsLong(address) => put_marked_long(text, "$", address, ".l"),
        Mode::PcDisplaced(displacement) => put_marked_word(text, "$", displacement, "(pc)"),
        Mode::PcIndexed(index, long, displacement) => {
            put_pc_indexed(text, index, long, displacement)
        }
        Mode::Immediate(n) => put_number(text, size, n),
    }
}

/// Appends the text of an operand. It fails where there is no memory for it.
pub(crate) fn put_operand(text: &mut String, operand: Operand68) -> Result<(), NoMemory>
    ensures { Appends result (string_bytes text.old) (string_bytes text.new) (operands.operand_text operand) }
{
    match operand {
        Operand68::Nothing => Ok(()),
        Operand68::Place(size, mode) => put_mode(text, size, mode),
        Operand68::Data(n) => put_marked_digit(text, "d", n, ""),
        Operand68::Address(n) => put_marked_digit(text, "a", n, ""),
        Operand68::Either(n) => put_register(text, n),
        Operand68::Sr => text.push_str("sr"),
        Operand68::Ccr => text.push_str("ccr"),
        Operand68::Usp => text.push_str("usp"),
        Operand68::Digit(n) => put_marked_digit(text, "#$", n, ""),
        Operand68::Number(size, n) => put_number(text, size, n),
        Operand68::Target(address) => put_marked_long(text, "$", address, ""),
        Operand68::Opcode(word) => put_marked_word(text, "$", word, ""),
        Operand68::Registers(turned, list) => put_list(text, turned, list),
    }
}

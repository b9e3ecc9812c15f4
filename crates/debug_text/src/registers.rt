ghost use Rattle.std.specs.Prelude.{◌≡◌, ◌<◌, string_bytes, IfOk};
ghost use Rattle.md_disasm.specs.Appends.{Appends};
ghost use Rattle.debug_text.specs.Replies as replies;

use md_disasm::{put_marked_digit, put_marked_long, put_marked_word};
use md_word::{NoMemory, Regs};
use std::alloc::Global;

/// Appends the name of a data or address register and its value, each after a space. It fails only when memory
/// runs out.
#[tactic(auto, unfolding(crate::specs::Replies::register_text))]
fn put_register(text: &mut String, regs: &Regs, number: u8) -> Result<(), NoMemory>
    requires { number < 16 }
    ensures { Appends result (string_bytes text.old) (string_bytes text.new) (replies.register_text regs.now number) }
{
    let letter = if number < 8 { " d" } else { " a" };
    put_marked_digit(text, letter, number % 8, " ")?;
    put_marked_long(text, "", regs.register(number), "")
}

/// Appends the names and values of the data and address registers. It fails only when memory runs out.
fn put_registers(text: &mut String, regs: &Regs) -> Result<(), NoMemory>
    ensures { Appends result (string_bytes text.old) (string_bytes text.new) (replies.registers_text regs.now 16) }
{
    for number in 0..16u8 {
        put_register(text, regs, number)?;
    }
    Ok(())
}

/// The reply with the registers of the 68000, hexadecimal: the program counter, the status register, the data
/// registers and the address registers, of which A7 is the active stack pointer. It fails only when memory runs
/// out.
pub fn register_reply(alloc: Global, regs: &Regs) -> Result<String, NoMemory>
    ensures { IfOk result (λ text. string_bytes text ≡ replies.register_reply regs.now) }
{
    let mut text = String::new(alloc);
    put_marked_long(&mut text, "pc ", regs.pc, " ")?;
    put_marked_word(&mut text, "sr ", regs.sr, "")?;
    put_registers(&mut text, regs)?;
    text.push_str("\n")?;
    Ok(text)
}

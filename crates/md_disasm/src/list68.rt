ghost use Rattle.std.specs.Prelude.{◌≡◌, ◌<◌, ◌++◌, [], not, ◌&&◌, if◌then◌else◌, string_bytes, IfOk, OnOk};
ghost use Rattle.md_disasm.specs.Appends.{Appends};
ghost use Rattle.md_disasm.specs.Listed68.{listed, next};
ghost use Rattle.md_disasm.specs.Operands68 as operands;

use crate::operand68::put_register;
use md_word::NoMemory;

/// Whether a register of sixteen is in a list.
#[tactic(auto, unfolding(crate::specs::Operands68::is_listed))]
fn is_listed(turned: bool, list: u16, n: u8) -> bool
    requires { n < 16 }
    ensures { result ≡ operands.is_listed turned list n }
{
    let bit = if turned { 15 - n } else { n };
    list >> bit & 1 == 1
}

/// Appends a register, and a slash before it where it is not the first.
/// It fails where there is no memory for it.
fn put_next(text: &mut String, first: bool, n: u8) -> Result<(), NoMemory>
    ensures { Appends result (string_bytes text.old) (string_bytes text.new) (next first n) }
{
    text.push_str(if first { "" } else { "/" })?;
    put_register(text, n)
}

/// Appends a register that is in a list, after a slash where it is not the first. Answers whether there
/// is still none. It fails where there is no memory for it.
fn put_if_listed(
    text: &mut String,
    turned: bool,
    list: u16,
    n: u8,
    first: bool,
) -> Result<bool, NoMemory>
    requires { n < 16 }
    ensures text { OnOk result (string_bytes text.new ≡ string_bytes text.old ++ (if operands.is_listed turned list n then next first n else [])) }
    ensures none { IfOk result (λ none. none ≡ first && not (operands.is_listed turned list n)) }
{
    if is_listed(turned, list, n) {
        put_next(text, first, n)?;
        Ok(false)
    } else {
        Ok(first)
    }
}

/// Appends the registers of a list that has some. It fails where there is no memory for it.
fn put_listed(text: &mut String, turned: bool, list: u16) -> Result<(), NoMemory>
    ensures { Appends result (string_bytes text.old) (string_bytes text.new) (listed turned list 16) }
{
    let mut first = true;
    for n in 0..16u8 {
        first = put_if_listed(text, turned, list, n, first)?;
    }
    Ok(())
}

/// Appends the registers of a list from D0 to A7, or `none`.
/// It fails where there is no memory for it.
#[tactic(auto, using(crate::proofs::Lists68::all_listed), unfolding(crate::specs::Operands68::list_text))]
pub(crate) fn put_list(text: &mut String, turned: bool, list: u16) -> Result<(), NoMemory>
    ensures { Appends result (string_bytes text.old) (string_bytes text.new) (operands.list_text turned list) }
{
    if list == 0 {
        text.push_str("none")
    } else {
        put_listed(text, turned, list)
    }
}

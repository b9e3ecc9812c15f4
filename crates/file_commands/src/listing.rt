ghost use Rattle.std.specs.Prelude.{◌≡◌, ◌++◌, ◌<◌, IfOk, IsTrue, codes, string_bytes, true};
ghost use Rattle.md_disasm.specs.Appends.{Appends};
ghost use Rattle.file_commands.specs.Lists as lists;
ghost use Rattle.asm_laws.specs.Places as places;

use crate::reading::{bytes_from, words_from};
use m68k_decode::decode as decode68;
use md_asm::Placed;
use md_disasm::{put_marked_long, text68, text80};
use md_word::NoMemory;
use std::alloc::Global;
use z80_decode::decode as decode80;

/// The text of the instruction at a place of an image, at its address. It fails where memory runs out.
fn text_at(alloc: Global, image: &[u8], placed: &Placed) -> Result<String, NoMemory>
    ensures { IfOk result (λ text. string_bytes text ≡ places.text_at placed.now.z80 image.now placed.now.place placed.now.address) }
{
    if placed.z80 {
        let decoded = decode80(&bytes_from(image, placed.place));
        text80(alloc, &decoded, (placed.address % 65_536) as u16)
    } else {
        let decoded = decode68(&words_from(image, placed.place));
        text68(alloc, &decoded, placed.address)
    }
}

/// Appends the line of an instruction: its place as eight hexadecimal digits, a space and its text. It fails where memory
/// runs out.
fn put_line(alloc: Global, list: &mut String, image: &[u8], placed: &Placed) -> Result<(), NoMemory>
    ensures { Appends result (string_bytes list.old) (string_bytes list.new) (lists.line_of image.now placed.now) }
{
    let text = text_at(alloc, image, placed)?;
    put_marked_long(list, "", placed.place, " ")?;
    list.push_str(text.as_str())?;
    list.push_str("\n")?;
    Ok(())
}

/// The list of an image's instructions, a line each. It fails where memory runs out.
#[tactic(auto, unfolding(crate::specs::Lists::list_of))]
pub(crate) fn list_of(alloc: Global, image: &[u8], lines: &[Placed]) -> Result<String, NoMemory>
    ensures { IfOk result (λ list. string_bytes list ≡ lists.list_of image.now lines.now) }
{
    let mut list = String::new(alloc);
    let mut rest = lines;
    while let [placed, after @ ..] = rest {
        put_line(alloc, &mut list, image, placed)?;
        rest = after;
    }
    Ok(list)
}

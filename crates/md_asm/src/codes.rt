ghost use Rattle.std.specs.Prelude.{◌≡◌, ◌<◌, IfOk, IfSome, false, map, option_map, true};
ghost use Rattle.md_asm_text.specs.Shown.{shown};
ghost use Rattle.md_asm.specs.Coded.{IsCoded};
ghost use Rattle.md_asm.specs.Codes as codes;

use crate::laws::{known_bytes, known_words};
use asm_m68k::words_of;
use asm_z80::bytes_of;
use md_asm_text::Token;
use md_word::NoMemory;
use std::alloc::Global;

/// Words as bytes, the high byte first. It fails where memory runs out.
#[tactic(auto, unfolding(crate::specs::Codes::in_bytes))]
fn in_bytes(alloc: Global, words: &[u16]) -> Result<Vec<u8>, NoMemory>
    ensures { IfOk result (λ bytes. bytes.items ≡ codes.in_bytes words.now) }
{
    let mut bytes = Vec::new(alloc);
    let mut rest = words;
    while let [word, after @ ..] = rest {
        bytes.push((*word / 256) as u8)?;
        bytes.push((*word % 256) as u8)?;
        rest = after;
    }
    Ok(bytes)
}

/// The bytes of an instruction of the 68000 at an address, or `None` where no instruction has these tokens there. It fails
/// where memory runs out.
#[tactic(auto, using(crate::proofs::Checks::main_round_trips, crate::proofs::Checks::main_none))]
fn main_code(alloc: Global, tokens: &[Token<'_>], at: u32) -> Result<Option<Vec<u8>>, NoMemory>
    ensures found { IfOk result (λ found. option_map (λ bytes. bytes.items) found ≡ codes.code false (map shown tokens.now) at) }
    ensures coded { IfOk result (λ found. IfSome found (λ bytes. IsCoded false (map shown tokens.now) at bytes.items)) }
{
    match words_of(alloc, tokens, at)? {
        Some(words) => {
            known_words(words.as_slice());
            let bytes = in_bytes(alloc, words.as_slice())?;
            Ok(Some(bytes))
        }
        None => Ok(None),
    }
}

/// The bytes of an instruction of the Z80 at an address, or `None` where no instruction has these tokens there. It fails
/// where memory runs out.
#[tactic(auto, using(crate::proofs::Checks::sub_round_trips, crate::proofs::Checks::sub_none))]
fn sub_code(alloc: Global, tokens: &[Token<'_>], at: u16) -> Result<Option<Vec<u8>>, NoMemory>
    ensures found { IfOk result (λ found. option_map (λ bytes. bytes.items) found ≡ codes.code true (map shown tokens.now) at) }
    ensures coded { IfOk result (λ found. IfSome found (λ bytes. IsCoded true (map shown tokens.now) at bytes.items)) }
{
    match bytes_of(alloc, tokens, at)? {
        Some(bytes) => {
            known_bytes(bytes.as_slice());
            let bytes = bytes.as_slice().to_vec(alloc)?;
            Ok(Some(bytes))
        }
        None => Ok(None),
    }
}

/// The bytes of an instruction of one processor at an address, which for the Z80 is below 10000h, or `None` where no
/// instruction has these tokens there. Bytes that are found tell the length of the line's form, and that its numbers fit.
/// It fails where memory runs out.
pub(crate) fn code(
    alloc: Global,
    z80: bool,
    tokens: &[Token<'_>],
    at: u32,
) -> Result<Option<Vec<u8>>, NoMemory>
    requires { z80 ≡ true → at < 65536 }
    ensures found { IfOk result (λ found. option_map (λ bytes. bytes.items) found ≡ codes.code z80 (map shown tokens.now) at) }
    ensures coded { IfOk result (λ found. IfSome found (λ bytes. IsCoded z80 (map shown tokens.now) at bytes.items)) }
{
    if z80 {
        sub_code(alloc, tokens, at as u16)
    } else {
        main_code(alloc, tokens, at)
    }
}

ghost use Rattle.std.specs.Prelude.{◌≡◌, ◌<◌, IfNone, IfOk, IfSome, None, map, true, ℕ};
ghost use Rattle.md_asm_text.specs.Shown.{shown};
ghost use Rattle.md_asm.specs.Contents as contents;
ghost use Rattle.md_asm.specs.Kept.{IsMeasured, SettlesOn};

use crate::codes::code;
use crate::contents::{is_unfit, settle, size};
use crate::numbers::{fill_names, has_name};
use crate::settled::Settled;
use md_asm_text::{Body, Token};
use md_word::NoMemory;
use std::alloc::Global;

/// What a line is before the names of its source are known.
#[derive(Drop)]
pub(crate) struct Measured {
    /// Its length in bytes.
    pub(crate) long: usize,
    /// Whether a number that is written in it does not fit.
    pub(crate) unfit: bool,
    /// Its bytes, where it has no name; `None` if it is patched once all names are known.
    pub(crate) bytes: Option<Vec<u8>>,
}

/// An instruction without names, measured by its bytes at its address, or `None` where it has none. It fails where memory
/// runs out.
fn measure_plain(
    alloc: Global,
    z80: bool,
    tokens: &[Token<'_>],
    at: u32,
) -> Result<Option<Measured>, NoMemory>
    requires { z80 ≡ true → at < 65536 }
    ensures { IfOk result (λ found. IfSome found (λ measured. IsMeasured z80 Body.Instruction (map shown tokens.now) at measured)) }
{
    match code(alloc, z80, tokens, at)? {
        Some(bytes) => Ok(Some(Measured {
            long: bytes.len(),
            unfit: false,
            bytes: Some(bytes),
        })),
        None => Ok(None),
    }
}

/// An instruction with names, measured with 8 for each of them at an address from which 8 is in reach of every branch, or
/// `None` where it has no bytes there. It fails where memory runs out.
fn measure_named(
    alloc: Global,
    z80: bool,
    tokens: &[Token<'_>],
) -> Result<Option<Measured>, NoMemory>
    ensures { IfOk result (λ found. IfSome found (λ measured. (at : ℕ) → IsMeasured z80 Body.Instruction (map shown tokens.now) at measured)) }
{
    let filled = fill_names(alloc, tokens)?;
    match code(alloc, z80, filled.as_slice(), 4)? {
        Some(bytes) => Ok(Some(Measured {
            long: bytes.len(),
            unfit: false,
            bytes: None,
        })),
        None => Ok(None),
    }
}

/// An instruction, measured by bytes, or `None` where it has none. It fails where memory runs out.
fn measure_instruction(
    alloc: Global,
    z80: bool,
    tokens: &[Token<'_>],
    at: u32,
) -> Result<Option<Measured>, NoMemory>
    requires { z80 ≡ true → at < 65536 }
    ensures { IfOk result (λ found. IfSome found (λ measured. IsMeasured z80 Body.Instruction (map shown tokens.now) at measured)) }
{
    if has_name(tokens) {
        measure_named(alloc, z80, tokens)
    } else {
        measure_plain(alloc, z80, tokens, at)
    }
}

/// The bytes of a line without names; `None` where it has names or is at fault. It fails where memory runs out.
fn known(
    alloc: Global,
    z80: bool,
    body: Body,
    long: usize,
    tokens: &[Token<'_>],
    at: u32,
) -> Result<Option<Vec<u8>>, NoMemory>
    requires { z80 ≡ true → at < 65536 }
    ensures { IfOk result (λ found. IfSome found (λ bytes. SettlesOn z80 body long (map shown tokens.now) at bytes.items)) }
{
    if has_name(tokens) {
        return Ok(None);
    }
    match settle(alloc, z80, body, long, tokens, at)? {
        Settled::Good(bytes) => Ok(Some(bytes)),
        Settled::Unknown | Settled::Unfit | Settled::Far => Ok(None),
    }
}

/// A line of any kind, measured by its form and each of its numbers, or `None` where it is no line. It fails where memory
/// runs out.
fn measure_parts(
    alloc: Global,
    z80: bool,
    body: Body,
    tokens: &[Token<'_>],
    at: u32,
) -> Result<Option<Measured>, NoMemory>
    requires { z80 ≡ true → at < 65536 }
    ensures found { IfOk result (λ found. IfSome found (λ measured. IsMeasured z80 body (map shown tokens.now) at measured)) }
    ensures none { IfOk result (λ found. IfNone found (contents.size z80 body (map shown tokens.now) ≡ None)) }
{
    let Some(long) = size(alloc, z80, body, tokens)? else {
        return Ok(None);
    };
    let unfit = is_unfit(alloc, z80, body, tokens)?;
    let bytes = known(alloc, z80, body, long, tokens, at)?;
    Ok(Some(Measured { long, unfit, bytes }))
}

/// What a line is before the names of its source are known, at its address, which for the Z80 is below 10000h, or `None`
/// where it is no line. An instruction is encoded once; where that finds no bytes, its form and its numbers tell what is
/// wrong with it. It fails where memory runs out.
pub(crate) fn measure(
    alloc: Global,
    z80: bool,
    body: Body,
    tokens: &[Token<'_>],
    at: u32,
) -> Result<Option<Measured>, NoMemory>
    requires { z80 ≡ true → at < 65536 }
    ensures found { IfOk result (λ found. IfSome found (λ measured. IsMeasured z80 body (map shown tokens.now) at measured)) }
    ensures none { IfOk result (λ found. IfNone found (contents.size z80 body (map shown tokens.now) ≡ None)) }
{
    if let Body::Instruction = body {
        let found = measure_instruction(alloc, z80, tokens, at)?;
        if found.is_some() {
            return Ok(found);
        }
    }
    measure_parts(alloc, z80, body, tokens, at)
}

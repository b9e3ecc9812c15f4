ghost use Rattle.std.specs.Prelude.{◌≡◌, ◌<◌, ◌*◌, ◌≤◌, IfOk, IfSome, false, length, map, option_map, true};
ghost use Rattle.md_asm_text.specs.Shown.{shown};
ghost use Rattle.md_asm.specs.Contents as contents;
ghost use Rattle.md_asm.specs.Numbers as numbers;
ghost use Rattle.md_asm.specs.SeenCodes.{settled_seen};

use crate::codes::code;
use crate::data::{any_over, bytes_of, count, words_of};
use crate::fitting::misfits;
use crate::numbers::{fill, has_name};
use crate::settled::Settled;
use md_asm_text::{Body, Token};
use md_word::NoMemory;
use std::alloc::Global;

/// The length in bytes of an instruction of one processor, or `None` where no instruction has this form. It fails where
/// memory runs out.
fn instruction_size(
    alloc: Global,
    z80: bool,
    tokens: &[Token<'_>],
) -> Result<Option<usize>, NoMemory>
    ensures { IfOk result (λ size. size ≡ contents.size z80 Body.Instruction (map shown tokens.now)) }
{
    let filled = fill(alloc, tokens)?;
    match code(alloc, z80, filled.as_slice(), 4)? {
        Some(bytes) => Ok(Some(bytes.len())),
        None => Ok(None),
    }
}

/// The length of a line in bytes, or `None` where it is no line. It fails where memory runs out.
pub fn size(
    alloc: Global,
    z80: bool,
    body: Body,
    tokens: &[Token<'_>],
) -> Result<Option<usize>, NoMemory>
    ensures { IfOk result (λ size. size ≡ contents.size z80 body (map shown tokens.now)) }
{
    match body {
        Body::Bad => Ok(None),
        Body::Words => Ok(Some(2 * count(tokens))),
        Body::Bytes => Ok(Some(count(tokens))),
        Body::Instruction => instruction_size(alloc, z80, tokens),
        Body::Nothing | Body::Org(_) | Body::Main | Body::Sub(_) => Ok(Some(0)),
    }
}

/// Whether a number of a line does not fit: it is out of the range of its place. It fails where memory runs out.
pub fn is_unfit(
    alloc: Global,
    z80: bool,
    body: Body,
    tokens: &[Token<'_>],
) -> Result<bool, NoMemory>
    ensures { IfOk result (λ unfit. unfit ≡ contents.is_unfit z80 body (map shown tokens.now)) }
{
    match body {
        Body::Sub(at) => Ok(at >= 65_536),
        Body::Words => Ok(any_over(65_536, tokens)),
        Body::Bytes => Ok(any_over(256, tokens)),
        Body::Instruction => misfits(alloc, z80, tokens),
        Body::Bad | Body::Nothing | Body::Org(_) | Body::Main => Ok(false),
    }
}

/// The bytes of a line without names at an address, or `None` where no instruction's text is the line's there. It fails
/// where memory runs out.
pub(crate) fn content(
    alloc: Global,
    z80: bool,
    body: Body,
    tokens: &[Token<'_>],
    at: u32,
) -> Result<Option<Vec<u8>>, NoMemory>
    requires { z80 ≡ true → at < 65536 }
    ensures { IfOk result (λ found. option_map (λ bytes. bytes.items) found ≡ contents.content z80 body (map shown tokens.now) at) }
{
    match body {
        Body::Words => {
            let bytes = words_of(alloc, tokens)?;
            Ok(Some(bytes))
        }
        Body::Bytes => {
            let bytes = bytes_of(alloc, tokens)?;
            Ok(Some(bytes))
        }
        Body::Instruction => code(alloc, z80, tokens, at),
        Body::Bad | Body::Nothing | Body::Org(_) | Body::Main | Body::Sub(_) => {
            Ok(Some(Vec::new(alloc)))
        }
    }
}

/// The outcome of a line of this length: its bytes, if they are as many, else `Far`.
fn sized(found: Option<Vec<u8>>, long: usize) -> Settled
    ensures { settled_seen result ≡ contents.sized long (option_map (λ bytes. bytes.items) found) }
{
    match found {
        Some(bytes) => {
            if bytes.len() == long {
                Settled::Good(bytes)
            } else {
                Settled::Far
            }
        }
        None => Settled::Far,
    }
}

/// The outcome of an instruction without names. Where its bytes are found, its numbers fit. It fails where memory runs out.
#[tactic(auto, using(crate::proofs::Found::coded_settles))]
fn settle_instruction(
    alloc: Global,
    z80: bool,
    long: usize,
    tokens: &[Token<'_>],
    at: u32,
) -> Result<Settled, NoMemory>
    requires addressed { z80 ≡ true → at < 65536 }
    requires plain { numbers.has_name (map shown tokens.now) ≡ false }
    ensures { IfOk result (λ settled. settled_seen settled ≡ contents.settled_line z80 Body.Instruction long (map shown tokens.now) at) }
{
    let found = code(alloc, z80, tokens, at)?;
    if found.is_none() && misfits(alloc, z80, tokens)? {
        return Ok(Settled::Unfit);
    }
    Ok(sized(found, long))
}

/// The outcome of a line of this length, with its names resolved, at an address, which for the Z80 is below 10000h. It
/// fails where memory runs out.
pub fn settle(
    alloc: Global,
    z80: bool,
    body: Body,
    long: usize,
    tokens: &[Token<'_>],
    at: u32,
) -> Result<Settled, NoMemory>
    requires { z80 ≡ true → at < 65536 }
    ensures { IfOk result (λ settled. settled_seen settled ≡ contents.settled_line z80 body long (map shown tokens.now) at) }
{
    if has_name(tokens) {
        return Ok(Settled::Unknown);
    }
    if let Body::Instruction = body {
        return settle_instruction(alloc, z80, long, tokens, at);
    }
    if is_unfit(alloc, z80, body, tokens)? {
        return Ok(Settled::Unfit);
    }
    let found = content(alloc, z80, body, tokens, at)?;
    Ok(sized(found, long))
}

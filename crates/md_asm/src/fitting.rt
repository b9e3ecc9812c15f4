ghost use Rattle.std.specs.Prelude.{◌≡◌, ◌<◌, ◌+◌, IfOk, length, map, true};
ghost use Rattle.md_asm_text.specs.Shown.{shown};
ghost use Rattle.md_asm_text.specs.Tokens as texts;
ghost use Rattle.md_asm.specs.Contents as contents;
ghost use Rattle.md_asm.specs.Numbers as numbers;

use crate::codes::code;
use crate::numbers::fill;
use md_asm_text::Token;
use md_word::NoMemory;
use std::alloc::Global;

/// The address 4 below, from which a branch to a number is in its reach.
fn under(z80: bool, n: u32) -> u32
    ensures value { result ≡ contents.under z80 n }
    ensures low { z80 ≡ true → result < 65536 }
{
    if z80 {
        ((u64::from(n) + 65_532) % 65_536) as u32
    } else {
        ((u64::from(n) + 4_294_967_292) % 4_294_967_296) as u32
    }
}

/// The tokens with 8 for each number and name, and a number at one place. It fails where memory runs out.
fn alone<'a>(
    alloc: Global,
    tokens: &[Token<'a>],
    i: usize,
    n: u32,
) -> Result<Vec<Token<'a>>, NoMemory>
    requires { i < length tokens.now }
    ensures { IfOk result (λ v. map shown v.items ≡ numbers.alone (map shown tokens.now) i (texts.Number n)) }
{
    let mut tried = fill(alloc, tokens)?;
    tried[i] = Token::Number(n);
    Ok(tried)
}

/// Whether a token at a place among tokens is a number that does not fit. It fails where memory runs out.
fn misfit(
    alloc: Global,
    z80: bool,
    tokens: &[Token<'_>],
    i: usize,
    token: &Token<'_>,
) -> Result<bool, NoMemory>
    requires { i < length tokens.now }
    ensures { IfOk result (λ misfits. misfits ≡ contents.misfit z80 (map shown tokens.now) i (shown token.now)) }
{
    match token {
        Token::Number(n) => {
            let tried = alone(alloc, tokens, i, *n)?;
            let found = code(alloc, z80, tried.as_slice(), under(z80, *n))?;
            Ok(found.is_none())
        }
        _ => Ok(false),
    }
}

/// Whether a number of an instruction does not fit. It fails where memory runs out.
#[tactic(auto, unfolding(crate::specs::Contents::misfits))]
pub(crate) fn misfits(alloc: Global, z80: bool, tokens: &[Token<'_>]) -> Result<bool, NoMemory>
    ensures { IfOk result (λ misfits. misfits ≡ contents.misfits z80 (map shown tokens.now) 0 (map shown tokens.now)) }
{
    let mut i = 0;
    let mut rest = tokens;
    while let [token, after @ ..] = rest {
        if misfit(alloc, z80, tokens, i, token)? {
            return Ok(true);
        }
        i += 1;
        rest = after;
    }
    Ok(false)
}

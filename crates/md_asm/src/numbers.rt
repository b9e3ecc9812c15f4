ghost use Rattle.std.specs.Prelude.{◌≡◌, IfOk, Some, map};
ghost use Rattle.md_asm_text.specs.Shown.{shown};
ghost use Rattle.md_asm.specs.Numbers as numbers;
ghost use Rattle.md_asm.specs.SeenCodes.{names_seen};

use crate::names::Names;
use md_asm_text::Token;
use md_word::NoMemory;
use std::alloc::Global;

/// A token with the value of its name, where it is a name that has one.
fn resolve_token<'a>(names: &Names<'a>, token: Token<'a>) -> Token<'a>
    ensures { shown result ≡ numbers.resolved_token (names_seen names.now) (shown token.entry) }
{
    match token {
        Token::Name(name) => match names.value_of(name) {
            Some(value) => Token::Number(value),
            None => token,
        },
        _ => token,
    }
}

/// The tokens with the values of names; a name without one stays. It fails where memory runs out.
pub fn resolve<'a>(
    alloc: Global,
    names: &Names<'a>,
    tokens: &[Token<'a>],
) -> Result<Vec<Token<'a>>, NoMemory>
    ensures { IfOk result (λ v. map shown v.items ≡ numbers.resolved (names_seen names.now) (map shown tokens.now)) }
{
    let mut resolved = Vec::new(alloc);
    for token in tokens {
        resolved.push(resolve_token(names, *token))?;
    }
    Ok(resolved)
}

fn is_name(token: &Token<'_>) -> bool
    ensures { result ≡ numbers.is_name (shown token.now) }
{
    match token {
        Token::Name(_) => true,
        _ => false,
    }
}

/// Whether a name is among the tokens.
#[tactic(auto, unfolding(crate::specs::Numbers::has_name))]
pub fn has_name(tokens: &[Token<'_>]) -> bool
    ensures { result ≡ numbers.has_name (map shown tokens.now) }
{
    let mut rest = tokens;
    while let [token, after @ ..] = rest {
        if is_name(token) {
            return true;
        }
        rest = after;
    }
    false
}

fn fill_token<'a>(token: Token<'a>) -> Token<'a>
    ensures { shown result ≡ numbers.filled_token (shown token.entry) }
{
    match token {
        Token::Name(_) | Token::Number(_) => Token::Number(8),
        _ => token,
    }
}

/// The tokens with 8 for each number and name. It fails where memory runs out.
pub(crate) fn fill<'a>(alloc: Global, tokens: &[Token<'a>]) -> Result<Vec<Token<'a>>, NoMemory>
    ensures { IfOk result (λ v. map shown v.items ≡ numbers.filled (map shown tokens.now)) }
{
    let mut filled = Vec::new(alloc);
    for token in tokens {
        filled.push(fill_token(*token))?;
    }
    Ok(filled)
}

fn fill_name<'a>(token: Token<'a>) -> Token<'a>
    ensures { shown result ≡ numbers.resolved_token (λ _. Some 8) (shown token.entry) }
{
    match token {
        Token::Name(_) => Token::Number(8),
        _ => token,
    }
}

/// The tokens with 8 for each name; numbers stay. It fails where memory runs out.
pub(crate) fn fill_names<'a>(
    alloc: Global,
    tokens: &[Token<'a>],
) -> Result<Vec<Token<'a>>, NoMemory>
    ensures { IfOk result (λ v. map shown v.items ≡ numbers.names_filled (map shown tokens.now)) }
{
    let mut filled = Vec::new(alloc);
    for token in tokens {
        filled.push(fill_name(*token))?;
    }
    Ok(filled)
}

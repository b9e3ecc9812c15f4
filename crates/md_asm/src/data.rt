ghost use Rattle.std.specs.Prelude.{◌≡◌, ◌≤◌, ◌++◌, IfOk, OnOk, length, map};
ghost use Rattle.md_asm_text.specs.Shown.{shown};
ghost use Rattle.md_asm.specs.Numbers as numbers;

use md_asm_text::Token;
use md_word::NoMemory;
use std::alloc::Global;

/// How many numbers and names there are.
#[tactic(auto, unfolding(crate::specs::Numbers::count))]
pub(crate) fn count(tokens: &[Token<'_>]) -> usize
    ensures value { result ≡ numbers.count (map shown tokens.now) }
    ensures within { result ≤ length tokens.now }
{
    let mut found = 0;
    let mut rest = tokens;
    while let [token, after @ ..] = rest {
        match token {
            Token::Number(_) | Token::Name(_) => found += 1,
            _ => {}
        }
        rest = after;
    }
    found
}

/// Whether a number is not below a limit.
#[tactic(auto, unfolding(crate::specs::Numbers::any_over))]
pub(crate) fn any_over(limit: u32, tokens: &[Token<'_>]) -> bool
    ensures { result ≡ numbers.any_over limit (map shown tokens.now) }
{
    let mut rest = tokens;
    while let [token, after @ ..] = rest {
        if let Token::Number(n) = token
            && limit <= *n
        {
            return true;
        }
        rest = after;
    }
    false
}

/// Appends a number as a byte. It fails where memory runs out.
fn put_byte(bytes: &mut Vec<u8>, token: &Token<'_>) -> Result<(), NoMemory>
    ensures { OnOk result (bytes.new.items ≡ bytes.old.items ++ numbers.byte_of (shown token.now)) }
{
    if let Token::Number(n) = token {
        bytes.push((*n % 256) as u8)?;
    }
    Ok(())
}

/// Appends a number as a word, the high byte first. It fails where memory runs out.
fn put_word(bytes: &mut Vec<u8>, token: &Token<'_>) -> Result<(), NoMemory>
    ensures { OnOk result (bytes.new.items ≡ bytes.old.items ++ numbers.word_of (shown token.now)) }
{
    if let Token::Number(n) = token {
        bytes.push((*n / 256 % 256) as u8)?;
        bytes.push((*n % 256) as u8)?;
    }
    Ok(())
}

/// The numbers as bytes. It fails where memory runs out.
#[tactic(auto, unfolding(crate::specs::Numbers::bytes_of))]
pub(crate) fn bytes_of(alloc: Global, tokens: &[Token<'_>]) -> Result<Vec<u8>, NoMemory>
    ensures { IfOk result (λ bytes. bytes.items ≡ numbers.bytes_of (map shown tokens.now)) }
{
    let mut bytes = Vec::new(alloc);
    let mut rest = tokens;
    while let [token, after @ ..] = rest {
        put_byte(&mut bytes, token)?;
        rest = after;
    }
    Ok(bytes)
}

/// The numbers as words, the high byte first. It fails where memory runs out.
#[tactic(auto, unfolding(crate::specs::Numbers::words_of))]
pub(crate) fn words_of(alloc: Global, tokens: &[Token<'_>]) -> Result<Vec<u8>, NoMemory>
    ensures { IfOk result (λ bytes. bytes.items ≡ numbers.words_of (map shown tokens.now)) }
{
    let mut bytes = Vec::new(alloc);
    let mut rest = tokens;
    while let [token, after @ ..] = rest {
        put_word(&mut bytes, token)?;
        rest = after;
    }
    Ok(bytes)
}

ghost use Rattle.std.specs.Prelude.{◌≡◌, ◌<◌, ◌≤◌, ◌^◌, ◌+◌, ◌*◌, [], length, true, if◌then◌else◌};
ghost use Rattle.text_lines.specs.Digits.{is_hexadecimal};
ghost use Rattle.md_asm_text.specs.Bounds.{limit};
ghost use Rattle.md_asm_text.specs.Tokens as meaning;
ghost use Rattle.md_asm_text.specs.Shown.{shown};

use crate::characters::{is_letter, is_named};
use crate::token::Token;
use text_lines::is_hexadecimal;

/// Whether all characters are hexadecimal digits.
fn are_hexadecimal(text: &[u8]) -> bool
    ensures { result ≡ meaning.every is_hexadecimal text.now }
{
    let mut rest = text;
    while let [c, after @ ..] = rest {
        if !is_hexadecimal(*c) {
            return false;
        }
        rest = after;
    }
    true
}

/// Whether all characters are allowed in a name.
fn are_named(text: &[u8]) -> bool
    ensures { result ≡ meaning.every meaning.is_named text.now }
{
    let mut rest = text;
    while let [c, after @ ..] = rest {
        if !is_named(*c) {
            return false;
        }
        rest = after;
    }
    true
}

/// The value of a hexadecimal digit, or of another character some number below 256.
fn digit_value(c: u8) -> u8
    ensures { result ≡ meaning.digit_value c }
{
    if c < 58 {
        c.saturating_sub(48)
    } else if c < 71 {
        c.saturating_sub(55)
    } else {
        c.saturating_sub(87)
    }
}

/// The value of digits after those that have a value already.
fn value_after(before: u32, text: &[u8]) -> u32
    requires few { length text.now ≤ 8 }
    requires digits { meaning.every is_hexadecimal text.now ≡ true }
    requires room { before < limit (length text.now) }
    ensures { result ≡ meaning.value_after before text.now }
{
    match text {
        [] => before,
        [c, rest @ ..] => {
            let digit = digit_value(*c);
            value_after(before * 16 + u32::from(digit), rest)
        }
    }
}

/// The value of at most eight hexadecimal digits.
#[tactic(auto, using(crate::proofs::Values::limit_eight))]
fn value(text: &[u8]) -> u32
    requires few { length text.now ≤ 8 }
    requires digits { meaning.every is_hexadecimal text.now ≡ true }
    ensures { result ≡ meaning.value_after 0 text.now }
{
    value_after(0, text)
}

/// Whether a word is one that no name may be.
fn is_reserved(word: &[u8]) -> bool
    ensures { result ≡ meaning.is_reserved word.now }
{
    word == b"usp".as_slice()
        || word == b"ccr".as_slice()
        || word == b"ixh".as_slice()
        || word == b"ixl".as_slice()
        || word == b"iyh".as_slice()
        || word == b"iyl".as_slice()
        || word == b"none".as_slice()
}

/// Whether a word is a name: a letter, then letters, digits and underscores, 3 to 32 in all, and none of
/// the words of texts that are as long.
#[tactic(auto, unfolding(crate::specs::Tokens::is_name))]
pub fn is_name(word: &[u8]) -> bool
    ensures { result ≡ meaning.is_name word.now }
{
    match word {
        [] => false,
        [c, rest @ ..] => {
            rest.len() >= 2
                && rest.len() <= 31
                && is_letter(*c)
                && are_named(rest)
                && !is_reserved(word)
        }
    }
}

/// Whether there are one to eight hexadecimal digits.
fn are_digits(text: &[u8]) -> bool
    ensures { result ≡ meaning.are_digits text.now }
{
    are_hexadecimal(text) && text.len() >= 1 && text.len() <= 8
}

/// The token of a word that is no number.
fn plain<'a>(word: &'a [u8]) -> Token<'a>
    ensures { shown result ≡ meaning.plain word.now }
{
    if is_name(word) {
        Token::Name(word)
    } else {
        Token::Word(word)
    }
}

/// The token of a word.
#[tactic(auto, unfolding(crate::specs::Tokens::token_of))]
pub(crate) fn token_of<'a>(word: &'a [u8]) -> Token<'a>
    ensures { shown result ≡ meaning.token_of word.now }
{
    match word {
        [36, digits @ ..] if are_digits(digits) => Token::Number(value(digits)),
        [] => Token::Word(word),
        _ => plain(word),
    }
}

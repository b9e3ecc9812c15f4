ghost use Rattle.std.specs.Prelude.{◌≡◌, map, length};
ghost use Rattle.md_asm_text.specs.Shown.{shown};
ghost use Rattle.md_asm_text.specs.Bodies as bodies;

use crate::Token;
use crate::body::Body;
use crate::operands::is_comma;

/// The tokens after a space, or none where there is no space.
fn spaced<'a, 'b>(tokens: &'b [Token<'a>]) -> &'b [Token<'a>]
    ensures { map shown result.now ≡ bodies.spaced (map shown tokens.now) }
{
    match tokens {
        [Token::Mark(32), rest @ ..] => rest,
        _ => &[],
    }
}

/// What follows `org`: a number.
fn org(tokens: &[Token<'_>]) -> Body
    ensures { result ≡ bodies.org (map shown tokens.now) }
{
    match tokens {
        [Token::Number(n)] => Body::Org(*n),
        _ => Body::Instruction,
    }
}

/// What follows `cpu z80`: a number.
fn sub(tokens: &[Token<'_>]) -> Body
    ensures { result ≡ bodies.sub (map shown tokens.now) }
{
    match tokens {
        [Token::Number(n)] => Body::Sub(*n),
        _ => Body::Instruction,
    }
}

/// What follows `cpu`: which processor.
fn cpu(tokens: &[Token<'_>]) -> Body
    ensures { result ≡ bodies.cpu (map shown tokens.now) }
{
    match tokens {
        [Token::Word(word)] if *word == b"68000".as_slice() => Body::Main,
        [Token::Name(word), rest @ ..] if *word == b"z80".as_slice() => sub(spaced(rest)),
        _ => Body::Instruction,
    }
}

fn is_value(token: &Token<'_>) -> bool
    ensures { result ≡ bodies.is_value (shown token.now) }
{
    match token {
        Token::Number(_) | Token::Name(_) => true,
        _ => false,
    }
}

/// Whether there are numbers and names with commas between, one at least.
#[tactic(auto, unfolding(crate::specs::Bodies::are_values))]
fn are_values(tokens: &[Token<'_>]) -> bool
    ensures { result ≡ bodies.are_values (map shown tokens.now) }
{
    let mut rest = tokens;
    while let [value, comma, after @ ..] = rest {
        if !is_value(value) || !is_comma(comma) {
            return false;
        }
        rest = after;
    }
    match rest {
        [value] => is_value(value),
        _ => false,
    }
}

/// What follows `dc`.
fn dc(tokens: &[Token<'_>]) -> Body
    ensures { result ≡ bodies.dc (map shown tokens.now) }
{
    match tokens {
        [Token::Mark(46), Token::Word(word), rest @ ..]
            if *word == b"w".as_slice() && are_values(spaced(rest)) => { Body::Words }
        _ => Body::Instruction,
    }
}

/// What follows `db`.
fn db(tokens: &[Token<'_>]) -> Body
    ensures { result ≡ bodies.db (map shown tokens.now) }
{
    if are_values(spaced(tokens)) {
        Body::Bytes
    } else {
        Body::Instruction
    }
}

/// What follows the first word.
fn named(word: &[u8], tokens: &[Token<'_>]) -> Body
    ensures { result ≡ bodies.named word.now (map shown tokens.now) }
{
    if word == b"org".as_slice() {
        org(spaced(tokens))
    } else if word == b"cpu".as_slice() {
        cpu(spaced(tokens))
    } else if word == b"dc".as_slice() {
        dc(tokens)
    } else if word == b"db".as_slice() {
        db(tokens)
    } else {
        Body::Instruction
    }
}

/// What the tokens of a line are: a directive, or else what has to be an instruction.
#[tactic(auto, unfolding(crate::specs::Bodies::directive_of))]
pub(crate) fn directive_of(tokens: &[Token<'_>]) -> Body
    ensures { result ≡ bodies.directive_of (map shown tokens.now) }
{
    match tokens {
        [Token::Word(word), rest @ ..] => named(word, rest),
        _ => Body::Instruction,
    }
}

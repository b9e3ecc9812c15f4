ghost use Rattle.std.specs.Prelude.{◌≡◌, ◌≤◌, ◌+◌, map, length, take, drop, false};
ghost use Rattle.md_asm_text.specs.Operands as meaning;
ghost use Rattle.md_asm_text.specs.Shown.{shown};

use crate::token::Token;

/// Whether brackets are open after a token.
fn opens(inside: bool, token: &Token<'_>) -> bool
    ensures { result ≡ meaning.opens inside (shown token.now) }
{
    match token {
        Token::Mark(40) => true,
        Token::Mark(41) => false,
        _ => inside,
    }
}

/// Whether a token is a comma.
pub(crate) fn is_comma(token: &Token<'_>) -> bool
    ensures { result ≡ meaning.is_comma (shown token.now) }
{
    match token {
        Token::Mark(44) => true,
        _ => false,
    }
}

/// The count of tokens before the first comma outside brackets; of all of them without one.
#[tactic(auto, unfolding(crate::specs::Operands::operands_of))]
fn before_comma(tokens: &[Token<'_>]) -> usize
    ensures within { result ≤ length tokens.now }
    ensures first { map shown (take result tokens.now) ≡ (meaning.operands_of false (map shown tokens.now)).0 }
    ensures second { map shown (drop (result + 1) tokens.now) ≡ (meaning.operands_of false (map shown tokens.now)).1 }
{
    let mut inside = false;
    for (i, token) in tokens.iter().enumerate() {
        if !inside && is_comma(token) {
            return i;
        }
        inside = opens(inside, token);
    }
    tokens.len()
}

/// The tokens of an instruction's first operand: those before the first comma outside brackets.
pub fn first_operand<'a, 'b>(tokens: &'b [Token<'a>]) -> &'b [Token<'a>]
    ensures { map shown result.now ≡ (meaning.operands_of false (map shown tokens.now)).0 }
{
    let count = before_comma(tokens);
    &tokens[..count]
}

/// The tokens of an instruction's second operand: those after the first comma outside brackets, none without one.
pub fn second_operand<'a, 'b>(tokens: &'b [Token<'a>]) -> &'b [Token<'a>]
    ensures { map shown result.now ≡ (meaning.operands_of false (map shown tokens.now)).1 }
{
    let count = before_comma(tokens);
    if count < tokens.len() {
        &tokens[count + 1..]
    } else {
        &tokens[count..]
    }
}

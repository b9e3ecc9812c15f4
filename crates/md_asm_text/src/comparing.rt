ghost use Rattle.std.specs.Prelude.{◌≡◌, ◌↔◌, map, IsTrue};
ghost use Rattle.md_asm_text.specs.Shown.{shown};

use crate::token::Token;

/// Whether two tokens are the same.
fn alike(x: &Token<'_>, y: &Token<'_>) -> bool
    ensures { IsTrue result ↔ (shown x.now ≡ shown y.now) }
{
    match (x, y) {
        (Token::Word(a), Token::Word(b)) => *a == *b,
        (Token::Number(a), Token::Number(b)) => *a == *b,
        (Token::Name(a), Token::Name(b)) => *a == *b,
        (Token::Mark(a), Token::Mark(b)) => *a == *b,
        _ => false,
    }
}

/// Whether two texts have the same tokens.
pub fn same(a: &[Token<'_>], b: &[Token<'_>]) -> bool
    ensures { IsTrue result ↔ (map shown a.now ≡ map shown b.now) }
{
    let mut first = a;
    let mut second = b;
    while let ([x, xs @ ..], [y, ys @ ..]) = (first, second) {
        if !alike(x, y) {
            return false;
        }
        first = xs;
        second = ys;
    }
    first.is_empty() && second.is_empty()
}

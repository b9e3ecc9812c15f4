ghost use Rattle.std.specs.Prelude.{◌≡◌};
ghost use Rattle.md_asm_text.specs.Texts as meaning;

/// Whether a character is a space or a tab.
fn is_blank(c: u8) -> bool
    ensures { result ≡ meaning.is_blank c }
{
    c == 32 || c == 9
}

/// A text without the blanks at the start.
#[tactic(auto, unfolding(crate::specs::Texts::unblanked))]
pub(crate) fn unblanked(text: &[u8]) -> &[u8]
    ensures { result.now ≡ meaning.unblanked text.now }
{
    let mut rest = text;
    while let [c, after @ ..] = rest {
        if !is_blank(*c) {
            return rest;
        }
        rest = after;
    }
    rest
}

/// A text without the blanks at its end.
#[tactic(auto, unfolding(crate::specs::Texts::unblanked))]
pub(crate) fn cut_back(text: &[u8]) -> &[u8]
    ensures { result.now ≡ meaning.cut_back text.now }
{
    let mut rest = text;
    while let [front @ .., c] = rest {
        if !is_blank(*c) {
            return rest;
        }
        rest = front;
    }
    rest
}

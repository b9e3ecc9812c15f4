ghost use Rattle.std.specs.Prelude.{◌≡◌, ◌<◌, ◌≤◌, ◌^◌, length};
ghost use Rattle.md_asm_text.specs.Tokens as meaning;

pub(crate) fn is_digit(c: u8) -> bool
    ensures { result ≡ meaning.is_digit c }
{
    c >= 48 && c <= 57
}

pub(crate) fn is_letter(c: u8) -> bool
    ensures { result ≡ meaning.is_letter c }
{
    (c >= 97 && c <= 122) || (c >= 65 && c <= 90)
}

/// Whether a character is allowed in a name.
pub(crate) fn is_named(c: u8) -> bool
    ensures { result ≡ meaning.is_named c }
{
    is_letter(c) || is_digit(c) || c == 95
}

/// Whether a character belongs to a word.
#[tactic(auto, unfolding(crate::specs::Tokens::is_worded))]
pub(crate) fn is_worded(c: u8) -> bool
    ensures { result ≡ meaning.is_worded c }
{
    is_named(c) || c == 36
}

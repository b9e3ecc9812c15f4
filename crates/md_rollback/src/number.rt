ghost use Rattle.std.specs.Prelude.{◌≡◌};
ghost use Rattle.text_lines.specs.Digits as digits;
ghost use Rattle.md_rollback.specs.Lines as meaning;

use text_lines::are_hexadecimal;

/// Buttons: 1 to 4 hexadecimal digits in either case; `None` where the word is none.
pub(crate) fn read_buttons(word: &str) -> Option<u16>
    ensures { result ≡ meaning.buttons_of word.now }
{
    if are_digits(word) {
        u16::from_str_radix(word, 16).ok()
    } else {
        None
    }
}

/// Whether a word is 1 to 4 hexadecimal digits.
fn are_digits(word: &str) -> bool
    ensures { result ≡ digits.are_digits digits.is_hexadecimal 4 word.now }
{
    word.len() >= 1 && word.len() <= 4 && are_hexadecimal(word)
}

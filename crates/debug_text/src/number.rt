//! Addresses of a line.
ghost use Rattle.std.specs.Prelude.{◌≡◌};
ghost use Rattle.text_lines.specs.Digits as digits;
ghost use Rattle.debug_text.specs.Numbers.{address_of};

use text_lines::are_lower_hexadecimal;

/// An address of 1 to 8 hexadecimal digits in lower case; `None` where the word is none.
pub(crate) fn read_address(word: &str) -> Option<u32>
    ensures { result ≡ address_of word.now }
{
    if is_address(word) {
        u32::from_str_radix(word, 16).ok()
    } else {
        None
    }
}

fn is_address(word: &str) -> bool
    ensures { result ≡ digits.are_digits digits.is_lower_hexadecimal 8 word.now }
{
    word.len() >= 1 && word.len() <= 8 && are_lower_hexadecimal(word)
}

//! Words of digits.
ghost use Rattle.std.specs.Prelude.{◌≡◌};
ghost use Rattle.std.specs.Char.{is_ascii_digit};
ghost use Rattle.std.specs.List.{list_all};
ghost use Rattle.text_lines.specs.Digits as meaning;

/// A number of 1 to 20 decimal digits; None for another word, and where the value is not below 2^64.
pub fn read_decimal(word: &str) -> Option<u64>
    ensures { result ≡ meaning.decimal_of word.now }
{
    if is_decimal(word) {
        word.parse::<u64>().ok()
    } else {
        None
    }
}

/// Whether a word is 1 to 20 decimal digits.
fn is_decimal(word: &str) -> bool
    ensures { result ≡ meaning.is_decimal word.now }
{
    word.len() >= 1 && word.len() <= 20 && are_decimal(word)
}

/// Whether all characters are decimal digits.
pub fn are_decimal(word: &str) -> bool
    ensures { result ≡ list_all is_ascii_digit word.now }
{
    word.as_bytes().iter().all(|byte| byte.is_ascii_digit())
}

/// Whether all characters are hexadecimal digits in lower case.
pub fn are_lower_hexadecimal(word: &str) -> bool
    ensures { result ≡ list_all meaning.is_lower_hexadecimal word.now }
{
    word.as_bytes()
        .iter()
        .all(|byte| is_lower_hexadecimal(*byte))
}

/// Whether all characters are hexadecimal digits, in either case.
pub fn are_hexadecimal(word: &str) -> bool
    ensures { result ≡ list_all meaning.is_hexadecimal word.now }
{
    word.as_bytes().iter().all(|byte| is_hexadecimal(*byte))
}

/// Whether a character is a hexadecimal digit in lower case.
pub fn is_lower_hexadecimal(byte: u8) -> bool
    ensures { result ≡ meaning.is_lower_hexadecimal byte }
{
    byte.is_ascii_digit() || (97 <= byte && byte <= 102)
}

/// Whether a character is a hexadecimal digit, in either case.
pub fn is_hexadecimal(byte: u8) -> bool
    ensures { result ≡ meaning.is_hexadecimal byte }
{
    byte.is_ascii_digit() || (97 <= byte && byte <= 102) || (65 <= byte && byte <= 70)
}

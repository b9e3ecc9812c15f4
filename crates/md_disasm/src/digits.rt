ghost use Rattle.std.specs.Prelude.{◌≡◌, ◌/◌, ◌%◌, string_bytes};
ghost use Rattle.md_disasm.specs.Appends.{Appends};
ghost use Rattle.md_disasm.specs.Digits as digits;

use md_word::NoMemory;

/// The last hexadecimal digit of a number, in lower case.
#[tactic(auto, unfolding(crate::specs::Digits::one_digit))]
fn digit(n: u8) -> &'static str
    ensures { result.now ≡ digits.one_digit n }
{
    match n & 15 {
        0 => "0",
        1 => "1",
        2 => "2",
        3 => "3",
        4 => "4",
        5 => "5",
        6 => "6",
        7 => "7",
        8 => "8",
        9 => "9",
        10 => "a",
        11 => "b",
        12 => "c",
        13 => "d",
        14 => "e",
        _ => "f",
    }
}

/// Appends the last digit of a number. It fails where there is no memory for it.
fn put_digit(text: &mut String, n: u8) -> Result<(), NoMemory>
    ensures { Appends result (string_bytes text.old) (string_bytes text.new) (digits.one_digit n) }
{
    text.push_str(digit(n))
}

/// Appends the two digits of a byte. It fails where there is no memory for it.
#[tactic(auto, unfolding(crate::specs::Digits::two_digits))]
fn put_byte(text: &mut String, n: u8) -> Result<(), NoMemory>
    ensures { Appends result (string_bytes text.old) (string_bytes text.new) (digits.two_digits n) }
{
    put_digit(text, n >> 4)?;
    put_digit(text, n)
}

/// Appends the four digits of a word. It fails where there is no memory for it.
#[tactic(auto, unfolding(crate::specs::Digits::four_digits))]
fn put_word(text: &mut String, n: u16) -> Result<(), NoMemory>
    ensures { Appends result (string_bytes text.old) (string_bytes text.new) (digits.four_digits n) }
{
    put_byte(text, (n >> 8) as u8)?;
    put_byte(text, (n & 0xff) as u8)
}

/// Appends the eight digits of a long. It fails where there is no memory for it.
#[tactic(auto, unfolding(crate::specs::Digits::eight_digits))]
fn put_long(text: &mut String, n: u32) -> Result<(), NoMemory>
    ensures { Appends result (string_bytes text.old) (string_bytes text.new) (digits.eight_digits n) }
{
    put_word(text, (n >> 16) as u16)?;
    put_word(text, (n & 0xffff) as u16)
}

/// Appends the last digit of a number between two texts. It fails where there is no memory for it.
#[tactic(auto, unfolding(crate::specs::Digits::marked_digit))]
pub fn put_marked_digit(text: &mut String, before: &str, n: u8, after: &str) -> Result<(), NoMemory>
    ensures { Appends result (string_bytes text.old) (string_bytes text.new) (digits.marked_digit before.now n after.now) }
{
    text.push_str(before)?;
    put_digit(text, n)?;
    text.push_str(after)
}

/// Appends the two digits of a byte between two texts. It fails where there is no memory for it.
#[tactic(auto, unfolding(crate::specs::Digits::marked_byte))]
pub fn put_marked_byte(text: &mut String, before: &str, n: u8, after: &str) -> Result<(), NoMemory>
    ensures { Appends result (string_bytes text.old) (string_bytes text.new) (digits.marked_byte before.now n after.now) }
{
    text.push_str(before)?;
    put_byte(text, n)?;
    text.push_str(after)
}

/// Appends the four digits of a word between two texts. It fails where there is no memory for it.
#[tactic(auto, unfolding(crate::specs::Digits::marked_word))]
pub fn put_marked_word(text: &mut String, before: &str, n: u16, after: &str) -> Result<(), NoMemory>
    ensures { Appends result (string_bytes text.old) (string_bytes text.new) (digits.marked_word before.now n after.now) }
{
    text.push_str(before)?;
    put_word(text, n)?;
    text.push_str(after)
}

/// Appends the eight digits of a long between two texts. It fails where there is no memory for it.
#[tactic(auto, unfolding(crate::specs::Digits::marked_long))]
pub fn put_marked_long(text: &mut String, before: &str, n: u32, after: &str) -> Result<(), NoMemory>
    ensures { Appends result (string_bytes text.old) (string_bytes text.new) (digits.marked_long before.now n after.now) }
{
    text.push_str(before)?;
    put_long(text, n)?;
    text.push_str(after)
}

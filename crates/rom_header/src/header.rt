ghost use Rattle.std.specs.Prelude.{◌≡◌, ◌-◌, ◌≤◌, ◌<◌, ◌++◌, length, map, IfOk, OnOk, codes, decimal};
ghost use Rattle.std.specs.Char.{digit_char};
ghost use Rattle.std.specs.List.{suffix_len};
ghost use Rattle.rom_header.specs.Cartridge.{IsImage};
ghost use Rattle.rom_header.specs.Header as meaning;

use itoa::Buffer;
use std::alloc::{AllocError, Global};

/// The lines that print what the header of an image says.
#[tactic(auto, unfolding(crate::specs::Header::header_lines))]
pub(crate) fn header_lines(alloc: Global, image: &[u8]) -> Result<Vec<u8>, AllocError>
    requires { IsImage image.now }
    ensures { IfOk result (λ text. text.items ≡ meaning.header_lines image.now) }
{
    let mut text = Vec::new(alloc);
    push_fields(&mut text, image)?;
    push_size(&mut text, image.len())?;
    push_checksums(&mut text, kept_checksum(image), computed_checksum(image))?;
    Ok(text)
}

/// Appends the lines of the names, the serial number and the regions.
#[tactic(auto, unfolding(crate::specs::Header::field_lines))]
fn push_fields(text: &mut Vec<u8>, image: &[u8]) -> Result<(), AllocError>
    requires { IsImage image.now }
    ensures { OnOk result (text.new.items ≡ text.old.items ++ meaning.field_lines image.now) }
{
    push_field(text, "domestic: ", &image[0x120..0x150])?;
    push_field(text, "overseas: ", &image[0x150..0x180])?;
    push_field(text, "serial: ", &image[0x180..0x18e])?;
    push_field(text, "region: ", &image[0x1f0..0x1f3])
}

/// The checksum that the header keeps.
fn kept_checksum(image: &[u8]) -> u16
    requires { IsImage image.now }
    ensures { result ≡ meaning.kept_checksum image.now }
{
    u16::from_be_bytes([image[0x18e], image[0x18f]])
}

/// The checksum of what comes after the header.
#[tactic(auto, unfolding(crate::specs::Header::words_of))]
fn computed_checksum(image: &[u8]) -> u16
    requires { IsImage image.now }
    ensures { result ≡ meaning.computed_checksum image.now }
{
    let (_, body) = image.split_at(0x200);
    let mut sum = 0u16;
    let mut rest = body;
    'words: while let [high, low, after @ ..] = rest {
        sum = sum.wrapping_add(u16::from_be_bytes([*high, *low]));
        rest = after;
    }
    sum
}

/// Appends the line of a field.
#[tactic(auto, unfolding(crate::specs::Header::shown))]
fn push_field(text: &mut Vec<u8>, label: &str, field: &[u8]) -> Result<(), AllocError>
    ensures { OnOk result (text.new.items ≡ text.old.items ++ meaning.line label.now (meaning.shown field.now)) }
{
    text.extend_from_slice(label.as_bytes())?;
    push_printed(text, &field[..trimmed_len(field)])?;
    text.extend_from_slice(b"\n")
}

/// Appends bytes as they are printed.
fn push_printed(text: &mut Vec<u8>, bytes: &[u8]) -> Result<(), AllocError>
    ensures { OnOk result (text.new.items ≡ text.old.items ++ map meaning.printed bytes.now) }
{
    for byte in bytes {
        text.push(printed(*byte))?;
    }
    Ok(())
}

fn printed(byte: u8) -> u8
    ensures { result ≡ meaning.printed byte }
{
    if byte >= 0x20 && byte <= 0x7e {
        byte
    } else {
        b'.'
    }
}

/// The length of a field without the blanks at its end.
fn trimmed_len(field: &[u8]) -> usize
    ensures value { result ≡ length field.now - suffix_len meaning.is_blank field.now }
    ensures within { result ≤ length field.now }
{
    let mut len = field.len();
    'blanks: while len > 0 && is_blank(field[len - 1]) {
        len -= 1;
    }
    len
}

fn is_blank(byte: u8) -> bool
    ensures { result ≡ meaning.is_blank byte }
{
    byte == 0 || byte == b' '
}

/// Appends the line of the image's size.
fn push_size(text: &mut Vec<u8>, size: usize) -> Result<(), AllocError>
    ensures { OnOk result (text.new.items ≡ text.old.items ++ meaning.line (codes "size: ") (decimal size)) }
{
    let mut digits = Buffer::new();
    text.extend_from_slice(b"size: ")?;
    text.extend_from_slice(digits.format(size).as_bytes())?;
    text.extend_from_slice(b"\n")
}

/// Appends the line of both checksums.
fn push_checksums(text: &mut Vec<u8>, kept: u16, computed: u16) -> Result<(), AllocError>
    ensures { OnOk result (text.new.items ≡ text.old.items ++ meaning.line (codes "checksum: ") (meaning.checksums kept computed)) }
{
    text.extend_from_slice(b"checksum: ")?;
    push_both(text, kept, computed)?;
    text.extend_from_slice(b"\n")
}

/// Appends both checksums, and whether they are the same.
#[tactic(auto, unfolding(crate::specs::Header::checksums))]
fn push_both(text: &mut Vec<u8>, kept: u16, computed: u16) -> Result<(), AllocError>
    ensures { OnOk result (text.new.items ≡ text.old.items ++ meaning.checksums kept computed) }
{
    text.extend_from_slice(&hexadecimal(kept))?;
    text.extend_from_slice(b" computed ")?;
    text.extend_from_slice(&hexadecimal(computed))?;
    text.extend_from_slice(verdict(kept, computed).as_bytes())
}

fn verdict(kept: u16, computed: u16) -> &'static str
    ensures { result.now ≡ meaning.verdict kept computed }
{
    if kept == computed { " ok" } else { " differs" }
}

/// A word in four hexadecimal digits.
fn hexadecimal(word: u16) -> [u8; 4]
    ensures { result ≡ meaning.hexadecimal word }
{
    [
        digit(word / 0x1000),
        digit(word / 0x100 % 0x10),
        digit(word / 0x10 % 0x10),
        digit(word % 0x10),
    ]
}

fn digit(value: u16) -> u8
    requires { value < 16 }
    ensures { result ≡ digit_char value }
{
    let value = value as u8;
    if value < 10 {
        b'0' + value
    } else {
        b'a' + value - 10
    }
}

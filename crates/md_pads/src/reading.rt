ghost use Rattle.std.specs.Prelude.{◌≡◌, ℕ, ◌+◌, ◌*◌, ◌<◌, ◌≤◌, ◌^◌, ◌↔◌, Bool, true, cond, length, take, slice_index, IsTrue, IfOk, IfErr};
ghost use Rattle.md_pads.specs.Recording.{InvalidAt, lead, words};
ghost use Rattle.md_pads.specs.Reading.{BeginsIn, HasByte, IsLongestIn, IsSpelledIn, least_count, whole_len, frames_in};

use crate::buttons::Buttons;
use crate::recording::{COUNT, MOST_FRAMES};
use crate::version::Version;
use bitflags::Flags;
use std::alloc::{AllocError, Global};

/// Every version.
const VERSIONS: [Version; 5] = [
    Version::First,
    Version::Second {
        pad1: false,
        pad2: false,
    },
    Version::Second {
        pad1: true,
        pad2: false,
    },
    Version::Second {
        pad1: false,
        pad2: true,
    },
    Version::Second {
        pad1: true,
        pad2: true,
    },
];

/// Where the count is: how many bytes are before it.
pub(crate) fn start(version: Version) -> usize
    ensures place { result ≡ length (lead version) }
    ensures early { result ≤ 10 }
{
    version.lead().len()
}

fn byte_or_0(bytes: &[u8], place: usize) -> u8
    ensures { result ≡ slice_index bytes.now place }
{
    bytes.get(place).copied().unwrap_or(0)
}

/// The count after so many bytes, or the least that begins with those that are there.
fn least_count(start: usize, bytes: &[u8]) -> u32
    requires { start ≤ 10 }
    ensures { result ≡ least_count start bytes.now }
{
    u32::from_be_bytes([
        byte_or_0(bytes, start),
        byte_or_0(bytes, start + 1),
        byte_or_0(bytes, start + 2),
        byte_or_0(bytes, start + 3),
    ])
}

/// The length of a recording with that count.
fn whole_len(start: usize, bytes: &[u8]) -> usize
    requires { start ≤ 10 }
    ensures { result ≡ whole_len start bytes.now }
{
    start + COUNT + 4 * least_count(start, bytes) as usize
}

/// Whether a pad's word may have this upper byte.
fn is_upper_byte(six: bool, byte: u8) -> bool
    ensures { IsTrue result ↔ (256 * byte < words six) }
{
    if six {
        Buttons::from_bits(u16::from_be_bytes([byte, 0])).is_some()
    } else {
        byte == 0
    }
}

/// Whether the words of the frames may have this byte so many bytes after the count.
fn is_frame_byte(version: Version, offset: usize, byte: u8) -> bool
    ensures { IsTrue result ↔ HasByte version offset byte }
{
    match offset % 4 {
        0 => is_upper_byte(version.six(1), byte),
        2 => is_upper_byte(version.six(2), byte),
        _ => true,
    }
}

/// Whether some recording of the version has, after the bytes before this place, the byte that is
/// there.
fn goes_on(version: Version, bytes: &[u8], place: usize) -> bool
    requires within { place < length bytes.now }
    requires begins { BeginsIn version (take place bytes.now) }
    ensures { IsTrue result ↔ BeginsIn version (take (place + 1) bytes.now) }
{
    let start = start(version);
    let prefix = &bytes[..place + 1];
    if place < start {
        bytes[place] == version.lead()[place]
    } else if place < start + COUNT {
        least_count(start, prefix) <= MOST_FRAMES
    } else {
        place < whole_len(start, prefix)
            && is_frame_byte(version, place - start - COUNT, bytes[place])
    }
}

/// The length of the longest prefix of the bytes that some recording of the version begins with.
fn longest_prefix(version: Version, bytes: &[u8]) -> usize
    ensures { IsLongestIn version bytes.now result }
{
    for place in 0..bytes.len() {
        if !goes_on(version, bytes, place) {
            return place;
        }
    }
    bytes.len()
}

/// Whether the bytes spell a recording of the version, where this is the length of their longest prefix
/// that begins one.
fn is_spelled(version: Version, bytes: &[u8], prefix: usize) -> bool
    requires { IsLongestIn version bytes.now prefix }
    ensures { IsTrue result ↔ IsSpelledIn version bytes.now }
{
    prefix == bytes.len() && prefix == whole_len(start(version), bytes)
}

/// The version of the recording that the bytes spell; where they spell none, the length of their longest
/// prefix that one begins with.
pub(crate) fn version_of(bytes: &[u8]) -> Result<Version, usize>
    ensures found { IfOk result (λ version. IsSpelledIn version bytes.now) }
    ensures invalid { IfErr result (λ place. InvalidAt bytes.now place) }
{
    let mut longest = 0;
    for version in VERSIONS {
        let prefix = longest_prefix(version, bytes);
        if is_spelled(version, bytes, prefix) {
            return Ok(version);
        }
        longest = longest.max(prefix);
    }
    Err(longest)
}

/// Each four bytes as the words of a frame.
#[tactic(auto, unfolding(crate::specs::Reading::frames_in))]
pub(crate) fn frames_in(alloc: Global, bytes: &[u8]) -> Result<Vec<(u16, u16)>, AllocError>
    ensures { IfOk result (λ frames. frames.items ≡ frames_in bytes.now) }
{
    let mut frames = Vec::with_capacity(alloc, bytes.len() / 4)?;
    let mut rest = bytes;
    while let [a, b, c, d, after @ ..] = rest {
        frames.push_reserved((u16::from_be_bytes([*a, *b]), u16::from_be_bytes([*c, *d])));
        rest = after;
    }
    Ok(frames)
}

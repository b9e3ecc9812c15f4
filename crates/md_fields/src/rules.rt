ghost use Rattle.std.specs.Prelude.{◌≡◌};
ghost use Rattle.md_fields.specs.Distances as distances;
ghost use Rattle.md_fields.specs.Padding as padding;

use crate::reading::u64_at;

/// How far from the cycle of a saved state the next event of a processor can be.
const FAR: u64 = 0x10_0000;

/// Whether the next event of a processor comes soon enough after the cycle of a saved state.
pub fn is_soon(next: u64, at: u64) -> bool
    ensures { result ≡ distances.is_soon next at }
{
    at <= next && next - at <= FAR
}

/// Whether a number is so much above another.
pub fn is_after(later: u64, earlier: u64, distance: u64) -> bool
    ensures { result ≡ distances.is_after later earlier distance }
{
    earlier <= later && later - earlier == distance
}

/// Whether all these bytes are 0, as those of places that are not used. Eight are looked at in one step.
pub fn are_zeros(bytes: &[u8]) -> bool
    ensures { result ≡ padding.are_zeros bytes.now }
{
    let mut place = 0;
    while place + 8 <= bytes.len() {
        if u64_at(bytes, place) != 0 {
            return false;
        }
        place += 8;
    }
    are_single_zeros(&bytes[place..])
}

/// The same, byte by byte.
fn are_single_zeros(bytes: &[u8]) -> bool
    ensures { result ≡ padding.are_zeros bytes.now }
{
    bytes.iter().all(|byte| *byte == 0)
}

/// Whether all these words are 0.
pub fn are_zero_words(words: &[u16]) -> bool
    ensures { result ≡ padding.are_zeros words.now }
{
    words.iter().all(|word| *word == 0)
}

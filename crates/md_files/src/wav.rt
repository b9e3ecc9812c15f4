ghost use Rattle.std.specs.Prelude.{◌≡◌, ◌+◌, ◌-◌, ◌^◌, ◌<◌, ◌≤◌, ◌++◌, vec_len, vec_capacity};
ghost use Rattle.md_files.specs.Wav.{pair_bytes, wav_format, wav_head};
ghost use Rattle.byteorder.specs.Endian.{little_bytes};

use crate::put::put;
use byteorder::{ByteOrder, LittleEndian};
use md_word::region::sound_rate;

/// Appends the 44 bytes of the header of a sound file of so many stereo pairs.
///
/// The file is a RIFF WAVE of 16-bit samples on two channels at 53,267 pairs a second, on PAL
/// 52,781. There is room for the header, and `pairs` is below 2^30 − 9, so that the sizes fit their fields.
#[tactic(auto, unfolding(crate::specs::Wav::wav_head))]
pub fn wav_head(pairs: u32, pal: bool, into: &mut Vec<u8>)
    requires pairs { pairs < 2 ^ 30 - 9 }
    requires room { vec_len into.old + 44 ≤ vec_capacity into.old }
    ensures bytes { into.new.items ≡ into.old.items ++ wav_head pairs pal }
    ensures length { vec_len into.new ≡ vec_len into.old + 44 }
    ensures room { vec_capacity into.new ≡ vec_capacity into.old }
{
    put(b"RIFF", into);
    put_u32(36 + 4 * pairs, into);
    put(b"WAVEfmt ", into);
    put_format(pal, into);
    put(b"data", into);
    put_u32(4 * pairs, into);
}

/// Appends one stereo pair, the left sample first.
#[tactic(auto, unfolding(crate::specs::Wav::pair_bytes))]
pub fn put_pair(left: i16, right: i16, into: &mut Vec<u8>)
    requires { vec_len into.old + 4 ≤ vec_capacity into.old }
    ensures bytes { into.new.items ≡ into.old.items ++ pair_bytes left right }
    ensures length { vec_len into.new ≡ vec_len into.old + 4 }
    ensures room { vec_capacity into.new ≡ vec_capacity into.old }
{
    let mut pair = [0; 4];
    LittleEndian::write_i16(&mut pair, left);
    LittleEndian::write_i16(&mut pair[2..], right);
    put(&pair, into);
}

/// Appends how samples are kept.
#[tactic(auto, unfolding(crate::specs::Wav::wav_format))]
fn put_format(pal: bool, into: &mut Vec<u8>)
    requires { vec_len into.old + 20 ≤ vec_capacity into.old }
    ensures bytes { into.new.items ≡ into.old.items ++ wav_format pal }
    ensures length { vec_len into.new ≡ vec_len into.old + 20 }
    ensures room { vec_capacity into.new ≡ vec_capacity into.old }
{
    let rate = sound_rate(pal);
    put_u32(16, into);
    put_u16(1, into);
    put_u16(2, into);
    put_u32(rate, into);
    put_u32(4 * rate, into);
    put_u16(4, into);
    put_u16(16, into);
}

fn put_u16(number: u16, into: &mut Vec<u8>)
    requires { vec_len into.old + 2 ≤ vec_capacity into.old }
    ensures bytes { into.new.items ≡ into.old.items ++ little_bytes 2 number }
    ensures length { vec_len into.new ≡ vec_len into.old + 2 }
    ensures room { vec_capacity into.new ≡ vec_capacity into.old }
{
    let mut bytes = [0; 2];
    LittleEndian::write_u16(&mut bytes, number);
    put(&bytes, into);
}

fn put_u32(number: u32, into: &mut Vec<u8>)
    requires { vec_len into.old + 4 ≤ vec_capacity into.old }
    ensures bytes { into.new.items ≡ into.old.items ++ little_bytes 4 number }
    ensures length { vec_len into.new ≡ vec_len into.old + 4 }
    ensures room { vec_capacity into.new ≡ vec_capacity into.old }
{
    let mut bytes = [0; 4];
    LittleEndian::write_u32(&mut bytes, number);
    put(&bytes, into);
}

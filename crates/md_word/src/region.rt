//! What a frame is in each region: NTSC, or PAL where `pal` is true. Source: Genesis Technical
//! Overview; the line at which the pads take their words is this project's profile.
ghost use Rattle.std.specs.Prelude.{◌≡◌, ◌<◌, ◌≤◌};
ghost use Rattle.md_word.specs.Region as region;

/// The lines of a frame: 262 or 313.
#[inline]
pub fn lines(pal: bool) -> u64
    ensures value { result ≡ region.lines pal }
    ensures some { 0 < result }
    ensures few { result ≤ 313 }
{
    if pal { 313 } else { 262 }
}

/// The master cycles of a frame: 896,040 or 1,070,460.
#[inline]
pub fn frame_cycles(pal: bool) -> u64
    ensures value { result ≡ region.frame_cycles pal }
    ensures some { 0 < result }
    ensures few { result ≤ 1070460 }
{
    if pal { 1_070_460 } else { 896_040 }
}

/// The rows of a picture, 224 or 240, which is the number of the line at whose start the pads take
/// their words and the frame is finished.
#[inline]
pub fn rows(pal: bool) -> u32
    ensures value { result ≡ region.rows pal }
    ensures few { result ≤ 240 }
{
    if pal { 240 } else { 224 }
}

/// The lines of the display, which on PAL may be tall: 224 or 240.
#[inline]
pub fn height(tall: bool) -> u32
    ensures value { result ≡ region.height tall }
    ensures few { result ≤ 240 }
{
    if tall { 240 } else { 224 }
}

/// The cycle of a frame at which that line starts: 766,080 or 820,800.
#[inline]
pub fn finished_at(pal: bool) -> u64
    ensures value { result ≡ region.finished_at pal }
    ensures few { result ≤ 820800 }
{
    if pal { 820_800 } else { 766_080 }
}

/// The bytes of a picture of 320 dots a row, three for each dot: 215,040 or 230,400.
#[inline]
pub fn picture_length(pal: bool) -> usize
    ensures value { result ≡ region.picture_length pal }
    ensures few { result ≤ 230400 }
{
    if pal { 230_400 } else { 215_040 }
}

/// The samples of a second, rounded down: 53,267 or 52,781.
#[inline]
pub fn sound_rate(pal: bool) -> u32
    ensures value { result ≡ region.sound_rate pal }
    ensures few { result ≤ 53267 }
{
    if pal { 52_781 } else { 53_267 }
}

ghost use Rattle.std.specs.Prelude.{◌≡◌, ◌+◌, ◌-◌, ◌<◌, ◌≤◌};
ghost use Rattle.md_word.specs.Region as region;
ghost use Rattle.vdp_time.specs.Lines as meaning;

use md_word::clock::LINE;
use md_word::region::{frame_cycles, height, lines};

/// The cycle in its line from which the horizontal blanking lasts.
const H_BLANK: u64 = 2560;

/// The line, in its frame, of a master cycle: 0 to 261, on PAL to 312.
#[inline]
#[tactic(auto, unfolding(crate::specs::Lines::line_of))]
pub fn line_of(cycle: u64, pal: bool) -> u32
    ensures value { result ≡ meaning.line_of cycle pal }
    ensures below { result < region.lines pal }
    ensures few { result < 313 }
{
    (cycle / LINE % lines(pal)) as u32
}

/// The frame of a master cycle, from 0.
#[inline]
#[tactic(auto, unfolding(crate::specs::Lines::frame_of))]
pub fn frame_of(cycle: u64, pal: bool) -> u64
    ensures { result ≡ meaning.frame_of cycle pal }
{
    cycle / frame_cycles(pal)
}

/// The counters at a cycle, V in the upper byte and H in the lower. `wide` is the 320 mode. Source:
/// Genesis Technical Overview, the HV counter; its jumps are this project's profile.
#[tactic(auto, unfolding(crate::specs::Lines::hv))]
pub fn hv(cycle: u64, wide: bool, pal: bool, tall: bool) -> u16
    ensures { result ≡ meaning.hv cycle wide pal tall }
{
    (v_counter(cycle, pal, tall) * 256 + h_counter(cycle, wide)) as u16
}

/// Whether a cycle is in the horizontal and in the vertical blanking: HB and VB of the status. With the
/// display off it is always in the vertical one.
#[tactic(auto, unfolding(crate::specs::Lines::h_blank, crate::specs::Lines::v_blank))]
pub fn blank(cycle: u64, display: bool, pal: bool, tall: bool) -> (bool, bool)
    ensures h { result.0 ≡ meaning.h_blank cycle }
    ensures v { result.1 ≡ meaning.v_blank cycle display pal tall }
{
    (
        cycle % LINE >= H_BLANK,
        line_of(cycle, pal) >= height(tall) || !display,
    )
}

/// A counter that jumps: where it would reach `last`, it continues from `again`.
#[tactic(auto, unfolding(crate::specs::Lines::jumping))]
fn jumping(last: u32, again: u32, count: u32) -> u32
    requires again { again < 0x1_0000 }
    requires count { count < 0x1_0000 }
    ensures value { result ≡ meaning.jumping last again count }
    ensures most { count < last + (256 - again) → last ≤ 256 → again ≤ 256 → result < 256 }
{
    if count < last {
        count
    } else {
        again + (count - last)
    }
}

/// The count of a line before its low byte is taken: 0 to 234, then 229 to 255; on PAL 0 to 258, then
/// 202 to 255, or where the display is tall 0 to 266, then 210 to 255.
#[tactic(auto, unfolding(crate::specs::Lines::v_count))]
fn v_count(line: u32, pal: bool, tall: bool) -> u32
    requires { line < 0x1_0000 }
    ensures value { result ≡ meaning.v_count pal tall line }
{
    if !pal {
        jumping(235, 229, line)
    } else if tall {
        jumping(267, 210, line)
    } else {
        jumping(259, 202, line)
    }
}

/// The V counter.
#[tactic(auto, unfolding(crate::specs::Lines::v_counter))]
fn v_counter(cycle: u64, pal: bool, tall: bool) -> u32
    ensures value { result ≡ meaning.v_counter cycle pal tall }
    ensures byte { result < 256 }
{
    v_count(line_of(cycle, pal), pal, tall) % 256
}

/// The H counter: 0 to 182, then 228 to 255 in the 320 mode; 0 to 147, then 233 to 255 in the 256
/// mode.
#[tactic(auto, unfolding(crate::specs::Lines::h_counter))]
fn h_counter(cycle: u64, wide: bool) -> u32
    ensures value { result ≡ meaning.h_counter cycle wide }
    ensures byte { result < 256 }
{
    let within = cycle % LINE;
    if wide {
        jumping(183, 228, (within * 211 / LINE) as u32)
    } else {
        jumping(148, 233, (within / 20) as u32)
    }
}

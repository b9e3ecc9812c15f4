ghost use Rattle.std.specs.Prelude.{ℕ, List, IsTrue, ◌/◌, ◌≡◌, ◌+◌, ◌*◌, ◌<◌, ◌≤ℤ◌, pos, length, All, slice_set};
ghost use Rattle.fm_chip.specs.Synth as meaning;
ghost use Rattle.fm_chip.specs.Channels.{AreAtRest, IsChannel, channel_at, channel_value, channel_after};
ghost use Rattle.fm_chip.specs.declared.channels.Moment.{Moment as MomentValue};
ghost use Rattle.fm_chip.specs.Steps.{AreSteps, IsSmall};
ghost use Rattle.fm_chip.specs.Shapes.{AreShapes};
ghost use Rattle.fm_voice.specs.Channel.{IsLevel, IsWithin};

use crate::channels::{Channel, Moment};
use crate::kept::Kept;
use crate::registers::{Registers, SIDES_DEPTHS, of_channel};
use crate::steps::Steps;

/// What a channel's level adds to the left side.
///
/// Source: Yamaha, YM2608 Application Manual, output channels.
#[tactic(auto, unfolding(crate::specs::Synth::left_of))]
fn left_of(registers: &Registers, number: u32, level: i32) -> i32
    requires number { number < 6 }
    requires level { IsLevel level }
    ensures value { result ≡ meaning.left_of registers.now number level }
    ensures level { IsLevel result }
{
    if of_channel(registers, number, SIDES_DEPTHS) / 128 % 2 == 1 {
        level
    } else {
        0
    }
}

/// What it adds to the right side.
#[tactic(auto, unfolding(crate::specs::Synth::right_of))]
fn right_of(registers: &Registers, number: u32, level: i32) -> i32
    requires number { number < 6 }
    requires level { IsLevel level }
    ensures value { result ≡ meaning.right_of registers.now number level }
    ensures level { IsLevel result }
{
    if of_channel(registers, number, SIDES_DEPTHS) / 64 % 2 == 1 {
        level
    } else {
        0
    }
}

/// Makes a sample of channel `number`; returns its level.
fn sample_one(
    channels: &mut [Channel; 6],
    registers: &Registers,
    moment: &Moment,
    kept: &Kept,
    number: u32,
) -> i32
    requires channels { All IsChannel channels.old }
    requires six { length channels.old ≡ 6 }
    requires t { moment.now.t < 128 }
    requires steps { AreSteps registers.now (moment.now.t / 4) kept.now.steps }
    requires shapes { AreShapes registers.now kept.now.shapes }
    requires number { number < 6 }
    ensures value { result ≡ channel_value registers.now moment.now number (channel_at channels.old number) }
    ensures after { channels.new ≡ slice_set channels.old number (channel_after registers.now moment.now number (channel_at channels.old number)) }
    ensures level { IsLevel result }
    ensures channels { All IsChannel channels.new }
{
    channels[number as usize].sample(
        registers,
        moment,
        &kept.steps[number as usize],
        &kept.shapes[number as usize],
        number,
    )
}

/// Whether all envelopes of all channels have reached the end of their release.
pub fn are_at_rest(channels: &[Channel; 6]) -> bool
    requires { length channels.now ≡ 6 }
    ensures { IsTrue result → All AreAtRest channels.now }
{
    for channel in channels {
        if !channel.is_at_rest() {
            return false;
        }
    }
    true
}

/// Makes a sample of all channels where all envelopes have reached the end of their release.
pub fn rest_all(channels: &mut [Channel; 6], steps: &[Steps; 6])
    requires channels { All IsChannel channels.old }
    requires rest { All AreAtRest channels.old }
    requires six { length channels.old ≡ 6 }
    requires steps { length steps.now ≡ 6 }
    requires small { All IsSmall steps.now }
    ensures after { (registers : List ℕ) (m : MomentValue) → AreSteps registers (m.t / 4) steps.now
        → channels.new ≡ meaning.channels_after registers m channels.old }
    ensures channels { All IsChannel channels.new }
    ensures rest { All AreAtRest channels.new }
    ensures six { length channels.new ≡ 6 }
{
    for number in 0..6 {
        channels[number].rest(&steps[number]);
    }
}

/// Makes a sample of all channels; returns the sums of both sides, each from −49,152 to 49,152.
pub fn sample_all(
    channels: &mut [Channel; 6],
    registers: &Registers,
    moment: &Moment,
    kept: &Kept,
) -> (i32, i32)
    requires channels { All IsChannel channels.old }
    requires six { length channels.old ≡ 6 }
    requires t { moment.now.t < 128 }
    requires steps { AreSteps registers.now (moment.now.t / 4) kept.now.steps }
    requires shapes { AreShapes registers.now kept.now.shapes }
    ensures left { result.0 ≡ meaning.left_below registers.now moment.now channels.old 6 }
    ensures right { result.1 ≡ meaning.right_below registers.now moment.now channels.old 6 }
    ensures left_range { IsWithin 49152 result.0 }
    ensures right_range { IsWithin 49152 result.1 }
    ensures after { channels.new ≡ meaning.channels_after registers.now moment.now channels.old }
    ensures channels { All IsChannel channels.new }
    ensures six { length channels.new ≡ 6 }
{
    let mut left = 0;
    let mut right = 0;
    for number in 0..6 {
        let level = sample_one(channels, registers, moment, kept, number);
        left += left_of(registers, number, level);
        right += right_of(registers, number, level);
    }
    (left, right)
}

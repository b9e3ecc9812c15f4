// The keys, by register 28. Source: Yamaha, YM2608 Application Manual, key on and off.

ghost use Rattle.std.specs.Prelude.{◌≡◌, ◌<◌, length, All, slice_set};
ghost use Rattle.std.specs.Option.{IfSome};
ghost use Rattle.fm_chip.specs.Keys as meaning;
ghost use Rattle.fm_chip.specs.Channels.{IsChannel, channel_at};

use crate::channels::Channel;
use crate::registers::{Registers, rate};
use fm_voice::EnvelopeState;

/// The channel, 0 to 5, whose keys a byte for register 28 sets; None where its low three bits are 3 or 7.
#[tactic(auto, unfolding(crate::specs::Keys::keyed_channel))]
pub fn keyed_channel(value: u8) -> Option<u32>
    ensures value { result ≡ meaning.keyed_channel value }
    ensures below { IfSome result (λ c. c < 6) }
{
    let number = u32::from(value % 4);
    if number == 3 {
        return None;
    }
    if value / 4 % 2 == 1 {
        return Some(number + 3);
    }
    Some(number)
}

/// Puts the keys of channel `number` on or off.
pub fn press(channels: &mut [Channel; 6], registers: &Registers, value: u8, number: u32)
    requires channels { All IsChannel channels.old }
    requires six { length channels.old ≡ 6 }
    requires number { number < 6 }
    ensures value { channels.new ≡ slice_set channels.old number (meaning.all_pressed registers.now value number (channel_at channels.old number)) }
    ensures channels { All IsChannel channels.new }
    ensures six { length channels.new ≡ 6 }
{
    press_all(&mut channels[number as usize], registers, value, number);
}

/// Puts the keys of a channel on or off: bits 7 to 4 of the byte are operators 4 to 1.
#[tactic(auto, unfolding(crate::specs::Keys::all_pressed))]
fn press_all(channel: &mut Channel, registers: &Registers, value: u8, number: u32)
    requires channel { IsChannel channel.old }
    requires number { number < 6 }
    ensures value { channel.new ≡ meaning.all_pressed registers.now value number channel.old }
    ensures channel { IsChannel channel.new }
{
    channel.one.press(
        value / 16 % 2 == 1,
        rate(registers, number, 0, EnvelopeState::Attack),
    );
    channel.two.press(
        value / 32 % 2 == 1,
        rate(registers, number, 1, EnvelopeState::Attack),
    );
    channel.three.press(
        value / 64 % 2 == 1,
        rate(registers, number, 2, EnvelopeState::Attack),
    );
    channel.four.press(
        value / 128 % 2 == 1,
        rate(registers, number, 3, EnvelopeState::Attack),
    );
}

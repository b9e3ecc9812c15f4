// What the registers say of a channel and of its operators. A channel is 0 to 5, an operator 0 to 3.
// Source: Yamaha, YM2608 Application Manual, FM registers.

ghost use Rattle.std.specs.Prelude.{◌≡◌, ◌+◌, ◌*◌, ◌/◌, ◌%◌, ◌<◌, ◌≤◌};
ghost use Rattle.fm_chip.specs.Registers as meaning;

use crate::frequency::Frequency;
use fm_voice::{EnvelopeState, key_code};

/// The registers of both ports, 256 each.
pub type Registers = [u8; 512];

/// Registers of an operator.
pub const DETUNE_MULTIPLE: u32 = 0x30;

pub const TOTAL_LEVEL: u32 = 0x40;

pub const SCALE_ATTACK: u32 = 0x50;

pub const TREMOLO_DECAY: u32 = 0x60;

pub const SUSTAIN_RATE: u32 = 0x70;

pub const LEVEL_RELEASE: u32 = 0x80;

/// Registers of a channel.
pub const FREQUENCY: u32 = 0xa0;

pub const FEEDBACK_ALGORITHM: u32 = 0xb0;

pub const SIDES_DEPTHS: u32 = 0xb4;

/// The register of a channel.
pub fn of_channel(registers: &Registers, channel: u32, register: u32) -> u32
    requires channel { channel < 6 }
    requires register { register < 253 }
    ensures value { result ≡ meaning.of_channel registers.now channel register }
    ensures byte { result < 256 }
{
    u32::from(registers[(channel / 3 * 256 + channel % 3 + register) as usize])
}

/// The register of an operator; those of operators 1, 3, 2, 4 are at 0, 4, 8, 12.
pub fn of_operator(registers: &Registers, channel: u32, operator: u32, register: u32) -> u32
    requires channel { channel < 6 }
    requires operator { operator < 4 }
    requires register { register < 144 }
    ensures value { result ≡ meaning.of_operator registers.now channel operator register }
    ensures byte { result < 256 }
{
    let place = channel / 3 * 256 + channel % 3 + register + (operator % 2 * 8 + operator / 2 * 4);
    u32::from(registers[place as usize])
}

/// The register of the low half of an operator's frequency.
#[tactic(auto, unfolding(crate::specs::Registers::frequency_place))]
fn frequency_place(registers: &Registers, channel: u32, operator: u32) -> u32
    requires channel { channel < 6 }
    requires operator { operator < 4 }
    ensures value { result ≡ meaning.frequency_place registers.now channel operator }
    ensures below { result < 500 }
{
    if channel == 2 && operator < 3 && registers[0x27] >= 64 {
        match operator {
            0 => 0xa9,
            1 => 0xaa,
            _ => 0xa8,
        }
    } else {
        channel / 3 * 256 + channel % 3 + FREQUENCY
    }
}

/// The frequency of an operator: its channel's, or one of its own in channel 3.
#[tactic(auto, unfolding(crate::specs::Registers::frequency_of))]
pub fn frequency_of(registers: &Registers, channel: u32, operator: u32) -> Frequency
    requires channel { channel < 6 }
    requires operator { operator < 4 }
    ensures value { result ≡ meaning.frequency_of registers.now channel operator }
    ensures fnum { result.fnum < 2048 }
    ensures block { result.block < 8 }
{
    let place = frequency_place(registers, channel, operator) as usize;
    let high = u32::from(registers[place + 4]);
    Frequency {
        fnum: high % 8 * 256 + u32::from(registers[place]),
        block: high / 8 % 8,
    }
}

/// The rate of a register's value, by the key code and the key scale.
#[tactic(auto, unfolding(crate::specs::Registers::rated))]
pub fn rated(value: u32, code: u32, scale: u32) -> u32
    requires value { value < 32 }
    requires code { code < 32 }
    requires scale { scale < 4 }
    ensures value { result ≡ meaning.rated value code scale }
    ensures below { result < 64 }
{
    if value == 0 {
        0
    } else {
        (2 * value + (code >> (3 - scale))).min(63)
    }
}

/// The register's value of a state's rate.
#[tactic(auto, unfolding(crate::specs::Registers::rate_value))]
pub fn rate_value(registers: &Registers, channel: u32, operator: u32, state: EnvelopeState) -> u32
    requires channel { channel < 6 }
    requires operator { operator < 4 }
    ensures value { result ≡ meaning.rate_value registers.now channel operator state }
    ensures below { result < 32 }
{
    match state {
        EnvelopeState::Attack => of_operator(registers, channel, operator, SCALE_ATTACK) % 32,
        EnvelopeState::Decay => of_operator(registers, channel, operator, TREMOLO_DECAY) % 32,
        EnvelopeState::Sustain => of_operator(registers, channel, operator, SUSTAIN_RATE) % 32,
        EnvelopeState::Release => {
            of_operator(registers, channel, operator, LEVEL_RELEASE) % 16 * 2 + 1
        }
    }
}

/// The rate at which an operator's envelope steps in a state, 0 to 63.
#[tactic(auto, unfolding(crate::specs::Registers::rate))]
pub fn rate(registers: &Registers, channel: u32, operator: u32, state: EnvelopeState) -> u32
    requires channel { channel < 6 }
    requires operator { operator < 4 }
    ensures value { result ≡ meaning.rate registers.now channel operator state }
    ensures below { result < 64 }
{
    let frequency = frequency_of(registers, channel, operator);
    let scale = of_operator(registers, channel, operator, SCALE_ATTACK) / 64;
    rated(
        rate_value(registers, channel, operator, state),
        key_code(frequency.fnum, frequency.block),
        scale,
    )
}

/// The attenuation at which an operator's decay ends, at most 992.
#[tactic(auto, unfolding(crate::specs::Registers::sustain_level))]
pub fn sustain_level(registers: &Registers, channel: u32, operator: u32) -> u32
    requires channel { channel < 6 }
    requires operator { operator < 4 }
    ensures value { result ≡ meaning.sustain_level registers.now channel operator }
    ensures below { result ≤ 992 }
{
    let level = of_operator(registers, channel, operator, LEVEL_RELEASE) / 16;
    if level == 15 { 992 } else { 32 * level }
}

// What the registers say of the envelopes and the levels of a channel's operators.

ghost use Rattle.std.specs.Prelude.{◌≡◌, ◌<◌, ◌≤◌, length};
ghost use Rattle.fm_chip.specs.Shapes as meaning;
ghost use Rattle.fm_chip.specs.Shapes.{AreShapes, IsShape, AreInRange};

use crate::registers::{
    Registers, SCALE_ATTACK, TOTAL_LEVEL, TREMOLO_DECAY, frequency_of, of_operator, rate_value,
    rated, sustain_level,
};
use fm_voice::{EnvelopeState, key_code};

/// What the registers say of an operator's envelope and level.
///
/// Source: Yamaha, YM2608 Application Manual, envelope generator and key scale.
#[derive(Clone, Copy)]
pub struct Shape {
    /// The rates of its states, 0 to 63.
    pub attack: u8,
    pub decay: u8,
    pub sustain: u8,
    pub release: u8,
    /// The attenuation at which its decay ends, at most 992.
    pub sustain_level: u16,
    /// The attenuation that its total level adds, at most 1,016.
    pub total_level: u16,
    /// Whether tremolo adds to it.
    pub has_tremolo: bool,
}

/// Those of a channel's four operators.
#[derive(Clone, Copy)]
pub struct Shapes {
    pub one: Shape,
    pub two: Shape,
    pub three: Shape,
    pub four: Shape,
}

impl Shape {
    /// The rate at which the envelope steps in a state.
    #[tactic(auto, unfolding(crate::specs::Shapes::rate_in))]
    pub fn rate(&self, state: EnvelopeState) -> u32
        requires { IsShape self.now }
        ensures value { result ≡ meaning.rate_in self.now state }
        ensures below { result < 64 }
    {
        u32::from(match state {
            EnvelopeState::Attack => self.attack,
            EnvelopeState::Decay => self.decay,
            EnvelopeState::Sustain => self.sustain,
            EnvelopeState::Release => self.release,
        })
    }
}

/// Makes the shapes of all channels.
pub fn make_shapes(channels: &mut [Shapes; 6], registers: &Registers)
    requires { length channels.old ≡ 6 }
    ensures { AreShapes registers.now channels.new }
{
    for number in 0..6 {
        channels[number as usize] = shapes_of(registers, number);
    }
}

/// The shapes of channel `number`.
#[tactic(auto, unfolding(crate::specs::Shapes::shapes_of))]
fn shapes_of(registers: &Registers, number: u32) -> Shapes
    requires { number < 6 }
    ensures value { result ≡ meaning.shapes_of registers.now number }
    ensures range { AreInRange result }
{
    Shapes {
        one: shape_of(registers, number, 0),
        two: shape_of(registers, number, 1),
        three: shape_of(registers, number, 2),
        four: shape_of(registers, number, 3),
    }
}

/// The shape of an operator.
#[tactic(auto, unfolding(crate::specs::Shapes::shape_of, crate::specs::Registers::rate))]
fn shape_of(registers: &Registers, channel: u32, operator: u32) -> Shape
    requires channel { channel < 6 }
    requires operator { operator < 4 }
    ensures value { result ≡ meaning.shape_of registers.now channel operator }
    ensures range { IsShape result }
{
    let frequency = frequency_of(registers, channel, operator);
    let code = key_code(frequency.fnum, frequency.block);
    let scale = of_operator(registers, channel, operator, SCALE_ATTACK) / 64;
    Shape {
        attack: rated(
            rate_value(registers, channel, operator, EnvelopeState::Attack),
            code,
            scale,
        ) as u8,
        decay: rated(
            rate_value(registers, channel, operator, EnvelopeState::Decay),
            code,
            scale,
        ) as u8,
        sustain: rated(
            rate_value(registers, channel, operator, EnvelopeState::Sustain),
            code,
            scale,
        ) as u8,
        release: rated(
            rate_value(registers, channel, operator, EnvelopeState::Release),
            code,
            scale,
        ) as u8,
        sustain_level: sustain_level(registers, channel, operator) as u16,
        total_level: (8 * (of_operator(registers, channel, operator, TOTAL_LEVEL) % 128)) as u16,
        has_tremolo: of_operator(registers, channel, operator, TREMOLO_DECAY) >= 128,
    }
}

ghost use Rattle.std.specs.Prelude.{◌≡◌, ◌+◌, ◌*◌, ◌^◌, ◌<◌, ◌≤◌, IsTrue};
ghost use Rattle.fm_chip.specs.Operators as meaning;
ghost use Rattle.fm_chip.specs.Operators.{IsAtRest, IsOperator};
ghost use Rattle.fm_chip.specs.Shapes.{IsShape, attenuation_by, enveloped_by};
ghost use Rattle.fm_voice.specs.Envelopes.{plain};

use crate::lfo::gain;
use crate::registers::{DETUNE_MULTIPLE, Registers, frequency_of, of_operator};
use crate::shapes::Shape;
use fm_voice::{Envelope, EnvelopeState, step_of};

/// An operator. The registers are not its own: they come with each call.
///
/// Source: Yamaha, YM2608 Application Manual, operators.
#[derive(Clone, Copy)]
pub struct Operator {
    /// Its phase, below 2^20.
    pub phase: u32,
    /// The attenuation of its envelope, at most 1,023.
    pub v: u16,
    /// The state of its envelope.
    pub state: EnvelopeState,
    /// Whether its key is on.
    pub on: bool,
}

impl Operator {
    /// Its envelope.
    fn envelope(&self) -> Envelope
        requires { IsOperator self.now }
        ensures { plain result ≡ meaning.envelope_of self.now }
    {
        Envelope {
            v: self.v,
            state: self.state,
            on: self.on,
        }
    }

    /// Takes its envelope back.
    fn keep(&mut self, envelope: &Envelope)
        requires { IsOperator self.old }
        ensures value { self.new ≡ meaning.given_envelope (plain envelope.now) self.old }
        ensures operator { IsOperator self.new }
    {
        self.v = envelope.v;
        self.state = envelope.state;
        self.on = envelope.on;
    }

    /// Whether its envelope has reached the end of its release, where a tick leaves it as it is.
    #[inline(always)]
    pub fn is_at_rest(&self) -> bool
        ensures { IsTrue result → IsAtRest self.now }
    {
        match self.state {
            EnvelopeState::Release => self.v == 1023,
            EnvelopeState::Attack | EnvelopeState::Decay | EnvelopeState::Sustain => false,
        }
    }

    /// Makes a tick of its envelope.
    #[tactic(auto, unfolding(crate::specs::Shapes::enveloped_by))]
    pub fn tick(&mut self, shape: &Shape, counter: u32)
        requires operator { IsOperator self.old }
        requires shape { IsShape shape.now }
        ensures value { self.new ≡ enveloped_by shape.now counter self.old }
        ensures operator { IsOperator self.new }
    {
        let mut envelope = self.envelope();
        let rate = shape.rate(envelope.stepping_state());
        envelope.tick(counter, rate, u32::from(shape.sustain_level));
        self.keep(&envelope);
    }

    /// The attenuation at which it sounds, with what tremolo adds.
    #[tactic(auto, unfolding(crate::specs::Shapes::attenuation_by))]
    pub fn attenuation(&self, shape: &Shape, tremolo: u32) -> u32
        requires operator { IsOperator self.now }
        requires shape { IsShape shape.now }
        requires tremolo { tremolo < 127 }
        ensures value { result ≡ attenuation_by shape.now tremolo self.now.v }
        ensures most { result ≤ 1023 }
    {
        let extra = if shape.has_tremolo { tremolo } else { 0 };
        (u32::from(self.v) + u32::from(shape.total_level) + extra).min(1023)
    }

    /// Moves its phase on by a step.
    #[tactic(auto, unfolding(crate::specs::Operators::advanced))]
    pub fn advance(&mut self, step: u32)
        requires operator { IsOperator self.old }
        requires step { step < 2 ^ 21 }
        ensures value { self.new ≡ meaning.advanced step self.old }
        ensures operator { IsOperator self.new }
    {
        self.phase = (self.phase + step) % 0x10_0000;
    }

    /// Puts its key on or off; a key-on starts the phase again. `attack` is the rate of its
    /// attack.
    #[tactic(auto, unfolding(crate::specs::Operators::pressed))]
    pub fn press(&mut self, on: bool, attack: u32)
        requires operator { IsOperator self.old }
        ensures value { self.new ≡ meaning.pressed on attack self.old }
        ensures operator { IsOperator self.new }
    {
        let mut envelope = self.envelope();
        if on && !self.on {
            self.phase = 0;
        }
        envelope.key(on, attack);
        self.keep(&envelope);
    }
}

/// The step of an operator's phase, with vibrato of a depth at one of its 32 places.
#[tactic(auto, unfolding(crate::specs::Operators::phase_step))]
pub fn phase_step(registers: &Registers, depth: u32, place: u32, channel: u32, operator: u32) -> u32
    requires depth { depth < 8 }
    requires place { place < 32 }
    requires channel { channel < 6 }
    requires operator { operator < 4 }
    ensures value { result ≡ meaning.phase_step registers.now depth place channel operator }
    ensures below { result < 2 ^ 21 }
{
    let frequency = frequency_of(registers, channel, operator);
    let tune = of_operator(registers, channel, operator, DETUNE_MULTIPLE);
    step_of(
        frequency.fnum,
        gain(frequency.fnum, depth, place),
        frequency.block,
        (tune / 16 % 8) as u8,
        (tune % 16) as u8,
    )
}

ghost use Rattle.std.specs.Prelude.{◌≡◌, ◌<◌, ◌≤◌};

pub mod state;
mod step;
mod value;

use state::EnvelopeState;
use step::step;
use value::{attacked, decayed, fallen};

/// An attack at this rate or above is over at once.
const AT_ONCE: u32 = 62;

/// The envelope of an operator.
///
/// Source: Yamaha, YM2608 Application Manual, envelope generator; the steps are this project's
/// profile.
#[derive(Clone, Copy)]
pub struct Envelope {
    /// The attenuation, 0 the loudest, 1,023 silence.
    pub v: u16,
    pub state: EnvelopeState,
    /// Whether the key is on.
    pub on: bool,
    pub ghost v_in_range: { v ≤ 1023 },
}

impl Envelope {
    ghost use Rattle.fm_voice.specs.Envelopes as meaning;
    ghost use Rattle.fm_voice.specs.Envelopes.{plain};

    /// The state in which it steps at its next tick: decay where an attack is at 0.
    #[tactic(auto, unfolding(crate::specs::Envelopes::turned))]
    pub fn stepping_state(&self) -> EnvelopeState
        ensures value { result ≡ meaning.stepping_state (plain self.now) }
    {
        match self.state {
            EnvelopeState::Attack if self.v == 0 => EnvelopeState::Decay,
            state => state,
        }
    }

    /// Makes one tick, where the counter that all envelopes share has reached `counter`.
    ///
    /// `rate`, 0 to 63, is that of the state in which it steps. `level`, 0 to 992, is the
    /// attenuation at which decay ends.
    #[tactic(auto, unfolding(crate::specs::Envelopes::ticked, crate::specs::Envelopes::stepped))]
    pub fn tick(&mut self, counter: u32, rate: u32, level: u32)
        requires rate { rate < 64 }
        requires level { level ≤ 992 }
        ensures value { plain self.new ≡ meaning.ticked counter rate level (plain self.old) }
    {
        let i = step(counter, rate);
        self.turn();
        let v = u32::from(self.v);
        match self.state {
            EnvelopeState::Attack => self.v = attacked(i, v) as u16,
            EnvelopeState::Decay => {
                let v = decayed(i, level, v);
                self.v = v as u16;
                if v >= level {
                    self.state = EnvelopeState::Sustain;
                }
            }
            EnvelopeState::Sustain | EnvelopeState::Release => self.v = fallen(i, v) as u16,
        }
    }

    /// An attack that has reached 0 goes to decay.
    #[tactic(auto, unfolding(crate::specs::Envelopes::turned))]
    fn turn(&mut self)
        ensures value { plain self.new ≡ meaning.turned (plain self.old) }
        ensures above { self.new.state ≡ EnvelopeState.Attack → 0 < self.new.v }
    {
        self.state = self.stepping_state();
    }

    /// Puts the key on or off. `rate` is the attack's.
    ///
    /// A key-on starts the attack, at once at full level where the rate is 62 or more;
    /// one that is on already changes nothing. A key that is off gives release.
    #[tactic(auto, unfolding(crate::specs::Envelopes::keyed))]
    pub fn key(&mut self, on: bool, rate: u32)
        ensures value { plain self.new ≡ meaning.keyed on rate (plain self.old) }
    {
        if !on {
            self.state = EnvelopeState::Release;
        } else if !self.on {
            self.state = EnvelopeState::Attack;
            if rate >= AT_ONCE {
                self.v = 0;
            }
        }
        self.on = on;
    }
}

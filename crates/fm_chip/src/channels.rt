ghost use Rattle.std.specs.Prelude.{ℕ, List, ◌/◌, ◌≡◌, ◌+◌, ◌*◌, ◌^◌, ◌<◌, ◌≤◌, ◌≤ℤ◌, pos, negsuc, All, IsTrue};
ghost use Rattle.fm_chip.specs.Channels as meaning;
ghost use Rattle.fm_chip.specs.declared.channels.Moment.{Moment as MomentValue};
ghost use Rattle.fm_chip.specs.Channels.{AreAtRest, IsChannel, IsQuiet};
ghost use Rattle.fm_chip.specs.Steps.{IsSmall, steps_of};
ghost use Rattle.fm_chip.specs.Shapes.{AreInRange, all_enveloped_by, attenuations_by, ready_by, shapes_of};
ghost use Rattle.fm_voice.specs.Channel.{IsLevel, heard};

use crate::converter::chosen;
use crate::lfo::tremolo;
use crate::operator::Operator;
use crate::registers::{FEEDBACK_ALGORITHM, Registers, SIDES_DEPTHS, of_channel};
use crate::shapes::Shapes;
use crate::steps::Steps;
use fm_voice::{SILENT, channel};

/// A channel: four operators. Source: Yamaha, YM2608 Application Manual, channels.
#[derive(Clone, Copy)]
pub struct Channel {
    pub one: Operator,
    pub two: Operator,
    pub three: Operator,
    pub four: Operator,
    /// The last two outputs of operator 1, the older one first.
    pub last: [i32; 2],
}

/// What all channels share at a sample.
#[derive(Clone, Copy)]
pub struct Moment {
    /// Whether the envelopes tick.
    pub ticks: bool,
    /// The counter of the envelopes.
    pub counter: u32,
    /// The place of the low frequency oscillator, below 128.
    pub t: u32,
}

impl Channel {
    /// Makes a tick of all four envelopes.
    #[tactic(auto, unfolding(crate::specs::Shapes::all_enveloped_by))]
    fn tick(&mut self, shapes: &Shapes, counter: u32)
        requires channel { IsChannel self.old }
        requires shapes { AreInRange shapes.now }
        ensures value { self.new ≡ all_enveloped_by shapes.now counter self.old }
        ensures channel { IsChannel self.new }
    {
        if self.is_at_rest() {
            return;
        }
        self.one.tick(&shapes.one, counter);
        self.two.tick(&shapes.two, counter);
        self.three.tick(&shapes.three, counter);
        self.four.tick(&shapes.four, counter);
    }

    #[tactic(auto, unfolding(crate::specs::Channels::phases))]
    fn phases(&self) -> [u32; 4]
        requires { IsChannel self.now }
        ensures value { result ≡ meaning.phases self.now }
        ensures below { All (λ p. p < 2 ^ 20) result }
    {
        [
            self.one.phase,
            self.two.phase,
            self.three.phase,
            self.four.phase,
        ]
    }

    /// The attenuations of the four operators, with what tremolo adds.
    #[tactic(auto, unfolding(crate::specs::Shapes::attenuations_by))]
    fn attenuations(&self, shapes: &Shapes, tremolo: u32) -> [u32; 4]
        requires channel { IsChannel self.now }
        requires shapes { AreInRange shapes.now }
        requires tremolo { tremolo < 127 }
        ensures value { result ≡ attenuations_by shapes.now tremolo self.now }
        ensures most { All (λ a. a ≤ 1023) result }
    {
        [
            self.one.attenuation(&shapes.one, tremolo),
            self.two.attenuation(&shapes.two, tremolo),
            self.three.attenuation(&shapes.three, tremolo),
            self.four.attenuation(&shapes.four, tremolo),
        ]
    }

    /// Whether the envelopes leave nothing of the waves of all four operators.
    fn is_silent(&self) -> bool
        ensures { IsTrue result → IsQuiet self.now }
    {
        u32::from(self.one.v) >= SILENT
            && u32::from(self.two.v) >= SILENT
            && u32::from(self.three.v) >= SILENT
            && u32::from(self.four.v) >= SILENT
    }

    /// Whether a tick leaves all four envelopes as they are.
    pub fn is_at_rest(&self) -> bool
        ensures { IsTrue result → AreAtRest self.now }
    {
        self.one.is_at_rest()
            && self.two.is_at_rest()
            && self.three.is_at_rest()
            && self.four.is_at_rest()
    }

    /// The level where the oscillator is at `t`.
    fn sound(&mut self, registers: &Registers, shapes: &Shapes, t: u32, number: u32) -> i32
        requires channel { IsChannel self.old }
        requires shapes { shapes.now ≡ shapes_of registers.now number }
        requires range { AreInRange shapes.now }
        requires t { t < 128 }
        requires number { number < 6 }
        ensures value { result ≡ heard (meaning.voice_of registers.now t number self.old) }
        ensures after { self.new ≡ meaning.sounded registers.now t number self.old }
        ensures level { IsLevel result }
        ensures channel { IsChannel self.new }
    {
        if self.is_silent() {
            self.last = [self.last[1], 0];
            return 0;
        }
        self.sound_all(registers, shapes, t, number)
    }

    /// `sound`, operator by operator.
    #[tactic(auto, using(crate::proofs::Shaped::attenuations_is), unfolding(crate::specs::Channels::voice_of, crate::specs::Channels::sounded))]
    fn sound_all(&mut self, registers: &Registers, shapes: &Shapes, t: u32, number: u32) -> i32
        requires channel { IsChannel self.old }
        requires shapes { shapes.now ≡ shapes_of registers.now number }
        requires range { AreInRange shapes.now }
        requires t { t < 128 }
        requires number { number < 6 }
        ensures value { result ≡ heard (meaning.voice_of registers.now t number self.old) }
        ensures after { self.new ≡ meaning.sounded registers.now t number self.old }
        ensures level { IsLevel result }
        ensures channel { IsChannel self.new }
    {
        let algorithm = of_channel(registers, number, FEEDBACK_ALGORITHM);
        let depth = of_channel(registers, number, SIDES_DEPTHS) / 16 % 4;
        let phases = self.phases();
        let attenuations = self.attenuations(shapes, tremolo(depth, t));
        channel(
            (algorithm % 8) as u8,
            (algorithm / 8 % 8) as u8,
            &phases,
            &attenuations,
            &mut self.last,
        )
    }

    /// Moves all four phases on.
    #[tactic(auto, unfolding(crate::specs::Channels::all_advanced))]
    fn advance(&mut self, steps: &Steps)
        requires channel { IsChannel self.old }
        requires steps { IsSmall steps.now }
        ensures value { self.new ≡ meaning.all_advanced steps.now self.old }
        ensures channel { IsChannel self.new }
    {
        self.one.advance(steps.one);
        self.two.advance(steps.two);
        self.three.advance(steps.three);
        self.four.advance(steps.four);
    }

    /// Makes the envelopes' tick where it is due.
    #[tactic(auto, unfolding(crate::specs::Shapes::ready_by))]
    fn make_ready(&mut self, shapes: &Shapes, moment: &Moment)
        requires channel { IsChannel self.old }
        requires shapes { AreInRange shapes.now }
        ensures value { self.new ≡ ready_by shapes.now moment.now self.old }
        ensures channel { IsChannel self.new }
    {
        if moment.ticks {
            self.tick(shapes, moment.counter);
        }
    }

    /// Makes a sample where all envelopes have reached the end of their release: nothing is heard, and its
    /// phases advance by the steps that are due.
    #[inline(always)]
    #[tactic(auto, unfolding(crate::specs::Channels::all_advanced))]
    pub fn rest(&mut self, steps: &Steps)
        requires channel { IsChannel self.old }
        requires rest { AreAtRest self.old }
        requires small { IsSmall steps.now }
        ensures after { (registers : List ℕ) (m : MomentValue) (c : ℕ) → steps.now ≡ steps_of registers (m.t / 4) c
            → self.new ≡ meaning.channel_after registers m c self.old }
        ensures channel { IsChannel self.new }
        ensures rest { AreAtRest self.new }
    {
        self.last = [self.last[1], 0];
        self.advance(steps);
    }

    /// Makes a sample of channel `number`, 0 to 5: the envelopes tick where that is due, it sounds, and
    /// its phases advance by the steps that are due. Returns its level.
    #[tactic(auto, using(crate::proofs::Shaped::ready_is), unfolding(crate::specs::Channels::channel_value, crate::specs::Channels::channel_after, crate::specs::Channels::value))]
    pub fn sample(
        &mut self,
        registers: &Registers,
        moment: &Moment,
        steps: &Steps,
        shapes: &Shapes,
        number: u32,
    ) -> i32
        requires channel { IsChannel self.old }
        requires t { moment.now.t < 128 }
        requires number { number < 6 }
        requires steps { steps.now ≡ steps_of registers.now (moment.now.t / 4) number }
        requires small { IsSmall steps.now }
        requires shapes { shapes.now ≡ shapes_of registers.now number }
        requires range { AreInRange shapes.now }
        ensures value { result ≡ meaning.channel_value registers.now moment.now number self.old }
        ensures after { self.new ≡ meaning.channel_after registers.now moment.now number self.old }
        ensures level { IsLevel result }
        ensures channel { IsChannel self.new }
    {
        self.make_ready(shapes, moment);
        let level = self.sound(registers, shapes, moment.t, number);
        self.advance(steps);
        chosen(registers, number, level)
    }
}

ghost use Rattle.std.specs.Prelude.{◌≡◌, ◌+◌, ◌≤◌, ◌++◌, length, map, vec_len, vec_capacity};
ghost use Rattle.md_fields.specs.Fields.{AreSized, first_invalid as invalid_place, seen, spelling};
ghost use Rattle.fm_chip.specs.SynthSpelling as meaning;

use crate::channels::Channel;
use crate::operator::Operator;
use crate::saved_synth::{SavedLast, invalid_from};
use fm_voice::EnvelopeState;
use md_fields::{Field, put, u8_at, u16_at, u32_at};

/// The numbers that a saved state keeps of an operator, whatever they are.
#[derive(Clone, Copy)]
pub struct SavedOperator {
    pub phase: u32,
    pub v: u16,
    /// The number of its envelope's state.
    pub state: u8,
    /// 1 where its key is on.
    pub on: u8,
}

impl SavedOperator {
    /// What is kept of an operator.
    pub fn of(operator: &Operator) -> SavedOperator
        ensures { result ≡ meaning.saved_operator_of operator.now }
    {
        SavedOperator {
            phase: operator.phase,
            v: operator.v,
            state: state_number(operator.state),
            on: u8::from(operator.on),
        }
    }

    /// The numbers at an offset.
    pub fn read(bytes: &[u8], place: usize) -> SavedOperator
        requires { place + 8 ≤ length bytes.now }
        ensures { result ≡ meaning.operator_at place bytes.now }
    {
        SavedOperator {
            phase: u32_at(bytes, place),
            v: u16_at(bytes, place + 4),
            state: u8_at(bytes, place + 4 + 2),
            on: u8_at(bytes, place + 4 + 2 + 1),
        }
    }

    /// The operator of which these numbers are kept.
    pub fn operator(&self) -> Operator
        ensures { result ≡ meaning.operator_from self.now }
    {
        Operator {
            phase: self.phase,
            v: self.v,
            state: state_of(self.state),
            on: self.on == 1,
        }
    }
}

/// The number of an envelope's state in a saved state.
fn state_number(state: EnvelopeState) -> u8
    ensures { result ≡ meaning.state_number state }
{
    match state {
        EnvelopeState::Attack => 0,
        EnvelopeState::Decay => 1,
        EnvelopeState::Sustain => 2,
        EnvelopeState::Release => 3,
    }
}

/// The state of a number, 0 to 3.
fn state_of(number: u8) -> EnvelopeState
    ensures { result ≡ meaning.state_of number }
{
    match number {
        0 => EnvelopeState::Attack,
        1 => EnvelopeState::Decay,
        2 => EnvelopeState::Sustain,
        _ => EnvelopeState::Release,
    }
}

/// The numbers that a saved state keeps of the four operators of a channel.
#[derive(Clone, Copy)]
pub struct SavedFour {
    pub one: SavedOperator,
    pub two: SavedOperator,
    pub three: SavedOperator,
    pub four: SavedOperator,
}

impl SavedFour {
    /// What is kept of a channel's operators.
    pub fn of(channel: &Channel) -> SavedFour
        ensures { result ≡ meaning.saved_four_of channel.now }
    {
        SavedFour {
            one: SavedOperator::of(&channel.one),
            two: SavedOperator::of(&channel.two),
            three: SavedOperator::of(&channel.three),
            four: SavedOperator::of(&channel.four),
        }
    }

    /// The channel of which these numbers, and those of its last outputs, are kept.
    pub fn channel(&self, last: &SavedLast) -> Channel
        ensures { result ≡ meaning.channel_from self.now last.now }
    {
        Channel {
            one: self.one.operator(),
            two: self.two.operator(),
            three: self.three.operator(),
            four: self.four.operator(),
            last: last.outputs(),
        }
    }

    /// The numbers from an offset on.
    pub fn read(bytes: &[u8], place: usize) -> SavedFour
        requires { place + 32 ≤ length bytes.now }
        ensures { result ≡ meaning.four_at place bytes.now }
    {
        SavedFour {
            one: SavedOperator::read(bytes, place),
            two: SavedOperator::read(bytes, place + 8),
            three: SavedOperator::read(bytes, place + 8 + 8),
            four: SavedOperator::read(bytes, place + 8 + 8 + 8),
        }
    }

    /// The fields in their order, and whether their rules hold.
    #[tactic(auto, unfolding(md_fields::specs::Fields::AreSized))]
    pub fn fields(&self) -> [Field<'_>; 16]
        ensures fields { map seen result ≡ meaning.four_fields self.now }
        ensures sizes { AreSized (map seen result) }
    {
        [
            Field::Long(self.one.phase, self.one.phase < 0x10_0000),
            Field::Word(self.one.v, self.one.v <= 1_023),
            Field::Byte(self.one.state, self.one.state <= 3),
            Field::Byte(self.one.on, self.one.on <= 1),
            Field::Long(self.two.phase, self.two.phase < 0x10_0000),
            Field::Word(self.two.v, self.two.v <= 1_023),
            Field::Byte(self.two.state, self.two.state <= 3),
            Field::Byte(self.two.on, self.two.on <= 1),
            Field::Long(self.three.phase, self.three.phase < 0x10_0000),
            Field::Word(self.three.v, self.three.v <= 1_023),
            Field::Byte(self.three.state, self.three.state <= 3),
            Field::Byte(self.three.on, self.three.on <= 1),
            Field::Long(self.four.phase, self.four.phase < 0x10_0000),
            Field::Word(self.four.v, self.four.v <= 1_023),
            Field::Byte(self.four.state, self.four.state <= 3),
            Field::Byte(self.four.on, self.four.on <= 1),
        ]
    }

    /// The offset of the first field whose rule fails, where the first field is at `place`; None where
    /// each rule holds.
    pub fn invalid_at(&self, place: usize) -> Option<usize>
        requires { place ≤ 1000 }
        ensures { result ≡ invalid_place place (meaning.four_fields self.now) }
    {
        invalid_from(place, &self.fields())
    }

    /// Appends the bytes of the operators.
    pub fn put(&self, into: &mut Vec<u8>)
        requires { vec_len into.old + 32 ≤ vec_capacity into.old }
        ensures bytes { into.new.items ≡ into.old.items ++ spelling (meaning.four_fields self.now) }
        ensures length { vec_len into.new ≡ vec_len into.old + 32 }
        ensures room { vec_capacity into.old ≤ vec_capacity into.new }
    {
        put(&self.fields(), into);
    }
}

ghost use Rattle.std.specs.Prelude.{◌≡◌, length, map};
ghost use Rattle.md_fields.specs.Fields.{AreSized, seen};
ghost use Rattle.md_fields.specs.Places.{Stand};
ghost use Rattle.psg_sound.specs.SynthSpelling as meaning;

use crate::divider::Divider;
use crate::noise::Noise;
use crate::tone::Tone;
use md_fields::{Field, u8_at, u16_at};

/// The numbers that a saved state keeps of the synthesis, whatever they are: the three tones are 1 to
/// 3, and the noise is 4.
#[derive(Clone, Copy)]
pub struct SavedSynth {
    pub latch: u8,
    pub period1: u16,
    pub period2: u16,
    pub period3: u16,
    pub control: u8,
    pub volume1: u8,
    pub volume2: u8,
    pub volume3: u8,
    pub volume4: u8,
    pub counter1: u16,
    pub counter2: u16,
    pub counter3: u16,
    pub counter4: u16,
    pub bit1: u8,
    pub bit2: u8,
    pub bit3: u8,
    pub bit4: u8,
    pub register: u16,
}

impl SavedSynth {
    /// The numbers in the bytes.
    #[tactic(auto, unfolding(md_fields::specs::Places::Stand))]
    pub fn read(bytes: &[u8]) -> SavedSynth
        requires { length bytes.now ≡ meaning.synth_size }
        ensures { Stand 0 (meaning.synth_fields result) bytes.now }
    {
        SavedSynth {
            latch: u8_at(bytes, 0),
            period1: u16_at(bytes, 1),
            period2: u16_at(bytes, 3),
            period3: u16_at(bytes, 5),
            control: u8_at(bytes, 7),
            volume1: u8_at(bytes, 8),
            volume2: u8_at(bytes, 9),
            volume3: u8_at(bytes, 10),
            volume4: u8_at(bytes, 11),
            counter1: u16_at(bytes, 12),
            counter2: u16_at(bytes, 14),
            counter3: u16_at(bytes, 16),
            counter4: u16_at(bytes, 18),
            bit1: u8_at(bytes, 20),
            bit2: u8_at(bytes, 21),
            bit3: u8_at(bytes, 22),
            bit4: u8_at(bytes, 23),
            register: u16_at(bytes, 24),
        }
    }

    /// The fields in their order, and whether their rules hold.
    #[tactic(auto, unfolding(md_fields::specs::Fields::AreSized))]
    pub fn fields(&self) -> [Field<'_>; 18]
        ensures fields { map seen result ≡ meaning.synth_fields self.now }
        ensures sizes { AreSized (map seen result) }
    {
        [
            Field::Byte(self.latch, self.latch < 8),
            Field::Word(self.period1, self.period1 < 1_024),
            Field::Word(self.period2, self.period2 < 1_024),
            Field::Word(self.period3, self.period3 < 1_024),
            Field::Byte(self.control, self.control < 16),
            Field::Byte(self.volume1, self.volume1 < 16),
            Field::Byte(self.volume2, self.volume2 < 16),
            Field::Byte(self.volume3, self.volume3 < 16),
            Field::Byte(self.volume4, self.volume4 < 16),
            Field::Word(self.counter1, is_counter(self.counter1)),
            Field::Word(self.counter2, is_counter(self.counter2)),
            Field::Word(self.counter3, is_counter(self.counter3)),
            Field::Word(self.counter4, is_counter(self.counter4)),
            Field::Byte(self.bit1, self.bit1 <= 1),
            Field::Byte(self.bit2, self.bit2 <= 1),
            Field::Byte(self.bit3, self.bit3 <= 1),
            Field::Byte(self.bit4, self.bit4 <= 1),
            Field::Word(self.register, true),
        ]
    }

    /// The noise of which these numbers are kept.
    pub fn noise(&self) -> Noise
        ensures { result ≡ (meaning.synth_from self.now).noise }
    {
        Noise {
            control: self.control,
            volume: self.volume4,
            divider: Divider {
                counter: self.counter4,
                bit: self.bit4 == 1,
            },
            register: self.register,
        }
    }
}

/// The tone of which these numbers are kept.
pub fn tone_from(period: u16, volume: u8, counter: u16, bit: u8) -> Tone
    ensures { result ≡ meaning.tone_from period volume counter bit }
{
    Tone {
        period,
        volume,
        divider: Divider {
            counter,
            bit: bit == 1,
        },
    }
}

fn is_counter(number: u16) -> bool
    ensures { result ≡ meaning.is_counter number }
{
    number >= 1 && number < 1_024
}

ghost use Rattle.std.specs.Prelude.{◌≡◌, ◌+◌, ◌<◌, ◌≤◌, ◌^◌, ◌&&◌, ◌++◌, length, map, take, drop, vec_len, vec_capacity};
ghost use Rattle.md_fields.specs.Fields.{AreSized, first_invalid as invalid_place, or_else, seen, sizes, spelling};
ghost use Rattle.fm_chip.specs.Channels.{IsChannel};
ghost use Rattle.fm_chip.specs.SynthSpelling as meaning;
ghost use Rattle.fm_voice.specs.Channel.{IsLevel};

use crate::channels::Channel;
use crate::saved_operator::SavedFour;
use md_fields::{Field, first_invalid, put, u8_at, u16_at};

/// The numbers that a saved state keeps of the last two outputs of a channel, in two's complement.
#[derive(Clone, Copy)]
pub struct SavedLast {
    pub older: u16,
    pub newer: u16,
}

/// The numbers that a saved state keeps of the synthesis, whatever they are: its operators channel by
/// channel, and the last outputs of each channel.
#[derive(Clone, Copy)]
pub struct SavedSynth {
    pub registers: [u8; 512],
    pub latches: [u8; 9],
    pub t: u8,
    pub count: u8,
    pub counter: u16,
    pub four1: SavedFour,
    pub four2: SavedFour,
    pub four3: SavedFour,
    pub four4: SavedFour,
    pub four5: SavedFour,
    pub four6: SavedFour,
    pub last1: SavedLast,
    pub last2: SavedLast,
    pub last3: SavedLast,
    pub last4: SavedLast,
    pub last5: SavedLast,
    pub last6: SavedLast,
}

impl SavedLast {
    /// What is kept of two outputs.
    pub fn of(channel: &Channel) -> SavedLast
        requires { IsChannel channel.now }
        ensures { result ≡ meaning.saved_last_of channel.now.last }
    {
        let [older, newer] = channel.last;
        SavedLast {
            older: word_of(older),
            newer: word_of(newer),
        }
    }

    /// The numbers at an offset.
    pub fn read(bytes: &[u8], place: usize) -> SavedLast
        requires { place + 4 ≤ length bytes.now }
        ensures { result ≡ meaning.last_at place bytes.now }
    {
        SavedLast {
            older: u16_at(bytes, place),
            newer: u16_at(bytes, place + 2),
        }
    }

    /// The outputs of which these numbers are kept.
    pub fn outputs(&self) -> [i32; 2]
        ensures { result ≡ meaning.last_from self.now }
    {
        [output_of(self.older), output_of(self.newer)]
    }

    /// Whether both are from −8,192 to 8,191.
    fn are_outputs(&self) -> bool
        ensures { result ≡ (meaning.is_output self.now.older && meaning.is_output self.now.newer) }
    {
        is_output(self.older) && is_output(self.newer)
    }
}

/// An output as a word of two's complement.
fn word_of(output: i32) -> u16
    requires { IsLevel output }
    ensures { result ≡ meaning.word_of output }
{
    if output >= 0 {
        output as u16
    } else {
        (output + 0x1_0000) as u16
    }
}

/// The output of a word.
fn output_of(word: u16) -> i32
    ensures { result ≡ meaning.output_of word }
{
    let output = i32::from(word);
    if word < 0x8000 {
        output
    } else {
        output - 0x1_0000
    }
}

fn is_output(word: u16) -> bool
    ensures { result ≡ meaning.is_output word }
{
    word < 0x2000 || word >= 0xe000
}

impl SavedSynth {
    /// The numbers in the bytes.
    pub fn read(bytes: &[u8]) -> SavedSynth
        requires { length bytes.now ≡ meaning.synth_size }
        ensures { result ≡ meaning.synth_at bytes.now }
    {
        SavedSynth {
            registers: registers_at(bytes),
            latches: latches_at(bytes),
            t: u8_at(bytes, 521),
            count: u8_at(bytes, 522),
            counter: u16_at(bytes, 523),
            four1: SavedFour::read(bytes, 525),
            four2: SavedFour::read(bytes, 557),
            four3: SavedFour::read(bytes, 589),
            four4: SavedFour::read(bytes, 621),
            four5: SavedFour::read(bytes, 653),
            four6: SavedFour::read(bytes, 685),
            last1: SavedLast::read(bytes, 717),
            last2: SavedLast::read(bytes, 721),
            last3: SavedLast::read(bytes, 725),
            last4: SavedLast::read(bytes, 729),
            last5: SavedLast::read(bytes, 733),
            last6: SavedLast::read(bytes, 737),
        }
    }

    /// The channels of which these numbers are kept.
    pub fn channels(&self) -> [Channel; 6]
        ensures { result ≡ meaning.channels_from self.now }
    {
        [
            self.four1.channel(&self.last1),
            self.four2.channel(&self.last2),
            self.four3.channel(&self.last3),
            self.four4.channel(&self.last4),
            self.four5.channel(&self.last5),
            self.four6.channel(&self.last6),
        ]
    }

    /// The fields before the operators, and whether their rules hold.
    #[tactic(auto, unfolding(md_fields::specs::Fields::AreSized))]
    pub fn head_fields(&self) -> [Field<'_>; 5]
        requires registers { length self.now.registers ≡ 512 }
        requires latches { length self.now.latches ≡ 9 }
        ensures fields { map seen result ≡ meaning.head_fields self.now }
        ensures sizes { AreSized (map seen result) }
    {
        [
            Field::Block(&self.registers, true),
            Field::Block(&self.latches, true),
            Field::Byte(self.t, self.t < 128),
            Field::Byte(self.count, self.count < 108),
            Field::Word(self.counter, self.counter < 4_096),
        ]
    }

    /// The fields after the operators, and whether their rules hold.
    #[tactic(auto, unfolding(md_fields::specs::Fields::AreSized))]
    pub fn last_fields(&self) -> [Field<'_>; 12]
        ensures fields { map seen result ≡ meaning.last_fields self.now }
        ensures sizes { AreSized (map seen result) }
    {
        [
            Field::Word(self.last1.older, self.last1.are_outputs()),
            Field::Word(self.last1.newer, true),
            Field::Word(self.last2.older, self.last2.are_outputs()),
            Field::Word(self.last2.newer, true),
            Field::Word(self.last3.older, self.last3.are_outputs()),
            Field::Word(self.last3.newer, true),
            Field::Word(self.last4.older, self.last4.are_outputs()),
            Field::Word(self.last4.newer, true),
            Field::Word(self.last5.older, self.last5.are_outputs()),
            Field::Word(self.last5.newer, true),
            Field::Word(self.last6.older, self.last6.are_outputs()),
            Field::Word(self.last6.newer, true),
        ]
    }

    /// The offset of the first field before the operators whose rule fails, None where none does.
    fn head_invalid(&self) -> Option<usize>
        ensures { result ≡ invalid_place 0 (meaning.head_fields self.now) }
    {
        first_invalid(&self.head_fields())
    }

    /// The offset of the first field after the operators whose rule fails, None where none does.
    fn last_invalid(&self) -> Option<usize>
        ensures { result ≡ invalid_place 717 (meaning.last_fields self.now) }
    {
        invalid_from(717, &self.last_fields())
    }

    /// The offset of the first field whose rule fails, None where each rule holds.
    pub fn invalid(&self) -> Option<usize>
        ensures { result ≡ invalid_place 0 (meaning.synth_fields self.now) }
    {
        let from6 = first_of(self.four6.invalid_at(685), self.last_invalid());
        let from5 = first_of(self.four5.invalid_at(653), from6);
        let from4 = first_of(self.four4.invalid_at(621), from5);
        let from3 = first_of(self.four3.invalid_at(589), from4);
        let from2 = first_of(self.four2.invalid_at(557), from3);
        let from1 = first_of(self.four1.invalid_at(525), from2);
        first_of(self.head_invalid(), from1)
    }

    fn put_head(&self, into: &mut Vec<u8>)
        requires { vec_len into.old + 525 ≤ vec_capacity into.old }
        ensures bytes { into.new.items ≡ into.old.items ++ spelling (meaning.head_fields self.now) }
        ensures length { vec_len into.new ≡ vec_len into.old + 525 }
        ensures room { vec_capacity into.old ≤ vec_capacity into.new }
    {
        put(&self.head_fields(), into);
    }

    fn put_last(&self, into: &mut Vec<u8>)
        requires { vec_len into.old + 24 ≤ vec_capacity into.old }
        ensures bytes { into.new.items ≡ into.old.items ++ spelling (meaning.last_fields self.now) }
        ensures length { vec_len into.new ≡ vec_len into.old + 24 }
        ensures room { vec_capacity into.old ≤ vec_capacity into.new }
    {
        put(&self.last_fields(), into);
    }

    /// Appends the bytes of all fields.
    pub fn put(&self, into: &mut Vec<u8>)
        requires { vec_len into.old + meaning.synth_size ≤ vec_capacity into.old }
        ensures bytes { into.new.items ≡ into.old.items ++ spelling (meaning.synth_fields self.now) }
        ensures length { vec_len into.new ≡ vec_len into.old + meaning.synth_size }
        ensures room { vec_capacity into.old ≤ vec_capacity into.new }
    {
        self.put_head(into);
        self.four1.put(into);
        self.four2.put(into);
        self.four3.put(into);
        self.four4.put(into);
        self.four5.put(into);
        self.four6.put(into);
        self.put_last(into);
    }
}

/// The registers at the start of the bytes.
fn registers_at(bytes: &[u8]) -> [u8; 512]
    requires { length bytes.now ≡ meaning.synth_size }
    ensures { result ≡ take 512 (drop 0 bytes.now) }
{
    let mut registers = [0; 512];
    registers.copy_from_slice(&bytes[0..512]);
    registers
}

/// The latches after them.
fn latches_at(bytes: &[u8]) -> [u8; 9]
    requires { length bytes.now ≡ meaning.synth_size }
    ensures { result ≡ take 9 (drop 512 bytes.now) }
{
    let mut latches = [0; 9];
    latches.copy_from_slice(&bytes[512..521]);
    latches
}

/// The offset of the first field whose rule fails, where the first field is at `place`; None where
/// each rule holds.
pub fn invalid_from(place: usize, fields: &[Field<'_>]) -> Option<usize>
    requires { place + sizes (map seen fields.now) < 2 ^ 32 }
    ensures { result ≡ invalid_place place (map seen fields.now) }
{
    match first_invalid(fields) {
        Some(invalid) => Some(place + invalid),
        None => None,
    }
}

/// The first of two offsets, None where there is neither.
pub fn first_of(place: Option<usize>, next: Option<usize>) -> Option<usize>
    ensures { result ≡ or_else place next }
{
    match place {
        Some(place) => Some(place),
        None => next,
    }
}

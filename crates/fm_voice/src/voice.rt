ghost use Rattle.std.specs.Prelude.{◌≡◌, ◌<◌, ◌≤◌, ◌^◌, All, IsTrue};
ghost use Rattle.fm_voice.specs.Channel as meaning;
ghost use Rattle.fm_voice.specs.Channel.{IsOutput, IsWithin};
ghost use Rattle.fm_voice.specs.Silence.{AreSilent};

use crate::oscillator::{SILENT, output};
use crate::routes::{carried, into_four, into_three, into_two};

/// The nearest level from −8,192 to 8,191.
#[tactic(auto, using(std::proofs::lemmas::Int::ints), unfolding(crate::specs::Channel::clamped))]
fn clamped(z: i32) -> i32
    ensures value { result ≡ meaning.clamped z }
    ensures range { meaning.IsLevel result }
{
    z.clamp(-8192, 8191)
}

/// The output of an operator that the half of a sum of outputs modulates.
#[tactic(auto, using(std::proofs::lemmas::Int::ints), unfolding(crate::specs::Channel::modulated, crate::specs::Channel::half))]
fn modulated(phase: u32, sum: i32, attenuation: u32) -> i32
    requires phase { phase < 2 ^ 20 }
    requires sum { IsWithin 16382 sum }
    requires attenuation { attenuation ≤ 1023 }
    ensures value { result ≡ meaning.modulated phase sum attenuation }
    ensures range { IsOutput result }
{
    output(phase, sum >> 1, attenuation)
}

/// What operator 1 is modulated by: the sum of its last two outputs, by the feedback.
#[tactic(auto, using(std::proofs::lemmas::Int::ints, crate::proofs::Sounding::shr_within), unfolding(crate::specs::Channel::fed_back))]
fn fed_back(feedback: u8, sum: i32) -> i32
    requires feedback { feedback < 8 }
    requires sum { IsWithin 16384 sum }
    ensures value { result ≡ meaning.fed_back feedback sum }
    ensures range { IsWithin 16384 result }
{
    if feedback == 0 {
        0
    } else {
        sum >> (10 - feedback)
    }
}

/// `channel`, operator by operator.
#[tactic(auto, using(std::proofs::lemmas::Int::ints))]
fn sounding(
    algorithm: u8,
    feedback: u8,
    phases: &[u32; 4],
    attenuations: &[u32; 4],
    last: &mut [i32; 2],
) -> i32
    requires algorithm { algorithm < 8 }
    requires feedback { feedback < 8 }
    requires phases { All (λ p. p < 2 ^ 20) phases.now }
    requires attenuations { All (λ a. a ≤ 1023) attenuations.now }
    requires last { All meaning.IsLevel last.old }
    ensures value { result ≡ meaning.heard (meaning.channel_voice algorithm feedback phases.now attenuations.now last.old) }
    ensures last { last.new ≡ meaning.last_after (meaning.channel_voice algorithm feedback phases.now attenuations.now last.old) }
    ensures range { meaning.IsLevel result }
    ensures kept { All meaning.IsLevel last.new }
{
    let [older, newer] = *last;
    let one = output(
        phases[0],
        fed_back(feedback, older + newer),
        attenuations[0],
    );
    let two = modulated(phases[1], into_two(algorithm, one), attenuations[1]);
    let three = modulated(phases[2], into_three(algorithm, one, two), attenuations[2]);
    let four = modulated(
        phases[3],
        into_four(algorithm, one, two, three),
        attenuations[3],
    );
    *last = [newer, one];
    clamped(carried(algorithm, one, two, three, four))
}

/// Whether nothing is left of the waves of all four operators.
fn are_silent(attenuations: &[u32; 4]) -> bool
    ensures { IsTrue result → AreSilent attenuations.now }
{
    attenuations[0] >= SILENT
        && attenuations[1] >= SILENT
        && attenuations[2] >= SILENT
        && attenuations[3] >= SILENT
}

/// One sample of a channel: its level, from −8,192 to 8,191.
///
/// `phases` and `attenuations` are those of operators 1 to 4: phases below 2^20, attenuations at
/// most 1,023. `last` has the last two outputs of operator 1, the older one first, and then this
/// sample's in place of the older. Algorithm and feedback are below 8.
///
/// Source: Yamaha, YM2608 Application Manual, algorithms and self-feedback.
#[tactic(auto, using(std::proofs::lemmas::Int::ints))]
pub fn channel(
    algorithm: u8,
    feedback: u8,
    phases: &[u32; 4],
    attenuations: &[u32; 4],
    last: &mut [i32; 2],
) -> i32
    requires algorithm { algorithm < 8 }
    requires feedback { feedback < 8 }
    requires phases { All (λ p. p < 2 ^ 20) phases.now }
    requires attenuations { All (λ a. a ≤ 1023) attenuations.now }
    requires last { All meaning.IsLevel last.old }
    ensures value { result ≡ meaning.heard (meaning.channel_voice algorithm feedback phases.now attenuations.now last.old) }
    ensures last { last.new ≡ meaning.last_after (meaning.channel_voice algorithm feedback phases.now attenuations.now last.old) }
    ensures range { meaning.IsLevel result }
    ensures kept { All meaning.IsLevel last.new }
{
    if are_silent(attenuations) {
        *last = [last[1], 0];
        return 0;
    }
    sounding(algorithm, feedback, phases, attenuations, last)
}

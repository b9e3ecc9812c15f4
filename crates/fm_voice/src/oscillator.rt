ghost use Rattle.std.specs.Prelude.{◌≡◌, ◌+◌, ◌*◌, ◌/◌, ◌%◌, ◌^◌, ◌<◌, ◌≤◌, ◌≤ℤ◌, ◌+ℤ◌, pos, negsuc};
ghost use Rattle.fm_voice.specs.Wave as meaning;
ghost use Rattle.fm_voice.specs.Channel.{IsOutput};

use crate::table::{power_entry, sine_entry};

/// The sine at a place of half a wave, at most 8,190.
#[tactic(auto, using(crate::proofs::Looked::sine_value, crate::proofs::Looked::sines_are_small))]
fn sine(n: u32) -> u32
    requires { n < 512 }
    ensures value { result ≡ meaning.sine n }
    ensures below { result ≤ 8191 }
{
    sine_entry(n)
}

/// 1,024 times a power of two, 1,031 to 2,042.
#[tactic(auto, using(crate::proofs::Looked::power_value, crate::proofs::Looked::powers_are_small))]
fn power(n: u32) -> u32
    requires { n < 64 }
    ensures value { result ≡ meaning.power n }
    ensures below { result ≤ 2042 }
{
    power_entry(n)
}

/// From this attenuation on nothing of a wave is left.
pub const SILENT: u32 = 832;

/// The wave without its sign.
#[tactic(auto, using(crate::proofs::Weaker::weaker, crate::proofs::Silent::silenced), unfolding(crate::specs::Wave::magnitude))]
fn magnitude(index: u32, attenuation: u32) -> u32
    requires attenuation { attenuation ≤ 1023 }
    ensures value { result ≡ meaning.magnitude index attenuation }
    ensures below { result ≤ 8191 }
{
    if attenuation >= SILENT {
        return 0;
    }
    let product = sine(index % 512) * power(attenuation % 64);
    product >> (11 + attenuation / 64)
}

/// The wave at one of its 1,024 places, made weaker by an attenuation of 0 to 1,023, of which 64
/// are half the amplitude.
///
/// Source: Yamaha, YM2608 Application Manual, operator; the approximations of sine and power are
/// this project's profile.
#[tactic(auto, using(std::proofs::lemmas::Int::ints), unfolding(crate::specs::Wave::wave))]
pub fn wave(index: u32, attenuation: u32) -> i32
    requires index { index < 1024 }
    requires attenuation { attenuation ≤ 1023 }
    ensures value { result ≡ meaning.wave index attenuation }
    ensures range { IsOutput result }
{
    let value = magnitude(index, attenuation) as i32;
    if index < 512 { value } else { -value }
}

/// The place in the wave, where the modulation moves the phase.
#[tactic(auto, using(std::proofs::lemmas::Int::ints), unfolding(crate::specs::Wave::place))]
fn place(phase: u32, modulation: i32) -> u32
    requires phase { phase < 2 ^ 20 }
    requires least { negsuc 16383 ≤ℤ modulation }
    requires most { modulation ≤ℤ pos 16384 }
    ensures value { result ≡ meaning.place phase modulation }
    ensures below { result < 1024 }
{
    ((phase >> 10) as i32 + modulation).rem_euclid(1024) as u32
}

/// The output of an operator: the wave where the modulation moves its phase.
#[tactic(auto, unfolding(crate::specs::Wave::output))]
pub fn output(phase: u32, modulation: i32, attenuation: u32) -> i32
    requires phase { phase < 2 ^ 20 }
    requires least { negsuc 16383 ≤ℤ modulation }
    requires most { modulation ≤ℤ pos 16384 }
    requires attenuation { attenuation ≤ 1023 }
    ensures value { result ≡ meaning.output phase modulation attenuation }
    ensures range { IsOutput result }
{
    wave(place(phase, modulation), attenuation)
}

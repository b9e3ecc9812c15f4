ghost use Rattle.std.specs.Prelude.{◌≡◌, ◌+◌, ◌*◌, ◌<◌, ◌≤◌, ◌^◌, ◌≤ℤ◌, ◌+ℤ◌, ◌/◌, pos, negsuc, slice_index};
ghost use Rattle.std.specs.Int.RustNames.{unsigned_abs};
ghost use Rattle.fm_voice.specs.Phase as meaning;

use crate::table::detune_entry;

/// The key code of a frequency, 0 to 31: the block, the frequency's highest bit, and a bit made of
/// its highest four.
///
/// Source: Yamaha, YM2608 Application Manual, key code.
#[tactic(auto, unfolding(crate::specs::Phase::key_code))]
pub fn key_code(fnum: u32, block: u32) -> u32
    requires fnum { fnum < 2048 }
    requires block { block < 8 }
    ensures value { result ≡ meaning.key_code fnum block }
    ensures below { result < 32 }
{
    let next = fnum >> 7 & 7;
    if fnum >> 10 & 1 == 1 {
        4 * block + 2 + u32::from(next != 0)
    } else {
        4 * block + u32::from(next == 7)
    }
}

/// A step with the detune added, or taken off where its bit 2 is set.
#[tactic(auto, using(crate::proofs::Looked::detunes_are_small), unfolding(crate::specs::Phase::detuned))]
fn detuned(detune: u32, code: u32, n: u32) -> u32
    requires detune { detune < 8 }
    requires code { code < 32 }
    requires n { n < 2 ^ 18 }
    ensures value { result ≡ meaning.detuned detune code n }
    ensures below { result < 2 ^ 17 }
{
    let offset = small_detune(detune % 4 * 32 + code);
    if detune >> 2 & 1 == 1 {
        (n + (0x2_0000 - offset)) % 0x2_0000
    } else {
        (n + offset) % 0x2_0000
    }
}

#[tactic(auto, using(crate::proofs::Looked::detunes_are_small))]
fn small_detune(n: u32) -> u32
    requires { n < 128 }
    ensures value { result ≡ slice_index meaning.detunes n }
    ensures below { result ≤ 22 }
{
    detune_entry(n)
}

/// A step times the multiple; 0 halves it.
#[tactic(auto, unfolding(crate::specs::Phase::multiplied))]
fn multiplied(multiple: u32, n: u32) -> u32
    requires multiple { multiple < 16 }
    requires n { n < 2 ^ 17 }
    ensures value { result ≡ meaning.multiplied multiple n }
    ensures below { result < 2 ^ 21 }
{
    if multiple == 0 { n / 2 } else { n * multiple }
}

/// A frequency with what vibrato adds.
#[tactic(auto, using(std::proofs::lemmas::Int::ints))]
fn moved(fnum: u32, gain: i32) -> u32
    requires fnum { fnum < 2048 }
    requires least { pos 0 ≤ℤ (pos fnum +ℤ gain) }
    requires most { gain ≤ℤ pos 95 }
    ensures value { result ≡ unsigned_abs (pos fnum +ℤ gain) }
    ensures below { result < 2143 }
{
    (fnum as i32 + gain) as u32
}

/// A frequency in its octave.
fn raised(f: u32, block: u32) -> u32
    requires f { f < 2143 }
    requires block { block < 8 }
    ensures value { result ≡ f * 2 ^ block / 2 }
    ensures below { result < 2 ^ 18 }
{
    (f << block) / 2
}

/// The step of a phase at a sample, below 2^21.
///
/// `fnum`, below 2,048, is the frequency as it is written, `gain`, −95 to 95, what vibrato adds to
/// it, and `block`, 0 to 7, its octave. `detune`, 0 to 7, and `multiple`, 0 to 15, are the
/// operator's. Source: Yamaha, YM2608 Application Manual, phase generator; the detunes are this
/// project's profile.
#[tactic(auto, unfolding(crate::specs::Phase::step_of))]
pub fn step_of(fnum: u32, gain: i32, block: u32, detune: u8, multiple: u8) -> u32
    requires fnum { fnum < 2048 }
    requires sum { pos 0 ≤ℤ (pos fnum +ℤ gain) }
    requires gain { gain ≤ℤ pos 95 }
    requires block { block < 8 }
    requires detune { detune < 8 }
    requires multiple { multiple < 16 }
    ensures value { result ≡ meaning.step_of fnum gain block detune multiple }
    ensures below { result < 2 ^ 21 }
{
    let plain = raised(moved(fnum, gain), block);
    let code = key_code(fnum, block);
    multiplied(u32::from(multiple), detuned(u32::from(detune), code, plain))
}

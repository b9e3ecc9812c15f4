// Parts of the FM chip by themselves, and the pair of both chips.
ghost use Rattle.std.specs.Prelude.{◌<◌, IfOk};

use fm_voice::{Envelope, EnvelopeState, channel, step_of, wave};
use md_files::mix;
use row_lines::{RowError, decimal_of, parted, readable};
use std::alloc::Global;
use std::fmt::Write;

fn number_of(word: &str) -> Result<i32, RowError> {
    readable(word.parse::<i32>())
}

/// So many decimal numbers.
fn numbers<const N: usize>(words: &str) -> Result<[i32; N], RowError> {
    let mut values = [0; N];
    let mut rest = words.split(' ');
    for value in values.iter_mut() {
        *value = number_of(rest.next().unwrap_or(""))?;
    }
    match rest.next() {
        None => Ok(values),
        Some(_) => Err(RowError::NoSuchLine),
    }
}

/// A number below a limit.
fn below(value: i32, limit: u32) -> Result<u32, RowError>
    ensures { IfOk result (λ n. n < limit) }
{
    match u32::try_from(value) {
        Ok(value) if value < limit => Ok(value),
        _ => Err(RowError::NoSuchLine),
    }
}

/// A wave: the place and the attenuation.
pub fn sample(alloc: Global, words: &str) -> Result<String, RowError> {
    let [place, attenuation] = numbers::<2>(words)?;
    let level = wave(below(place, 1024)?, below(attenuation, 1024)?);
    Ok(format!(in alloc; "{level}")?)
}

/// The step of a phase: the frequency, the octave, the detune and the multiple.
pub fn phase_step(alloc: Global, words: &str) -> Result<String, RowError> {
    let [number, octave, detune, multiple] = numbers::<4>(words)?;
    let number = below(number, 2048)?;
    let octave = below(octave, 8)?;
    let detune = below(detune, 8)? as u8;
    let multiple = below(multiple, 16)? as u8;
    decimal_of(
        alloc,
        "",
        u64::from(step_of(number, 0, octave, detune, multiple)),
    )
}

/// The level of a channel: the algorithm, the place of all four operators, and their attenuations.
pub fn voice(alloc: Global, words: &str) -> Result<String, RowError> {
    let [algorithm, place, one, two, three, four] = numbers::<6>(words)?;
    let algorithm = below(algorithm, 8)? as u8;
    let phase = below(place, 1024)? * 1024;
    let attenuations = [
        below(one, 1024)?,
        below(two, 1024)?,
        below(three, 1024)?,
        below(four, 1024)?,
    ];
    let mut last = [0, 0];
    let level = channel(algorithm, 0, &[phase; 4], &attenuations, &mut last);
    Ok(format!(in alloc; "{level}")?)
}

static STATES: [(&str, EnvelopeState); 4] = [
    ("attack", EnvelopeState::Attack),
    ("decay", EnvelopeState::Decay),
    ("sustain", EnvelopeState::Sustain),
    ("release", EnvelopeState::Release),
];

fn state_of(wanted: &str) -> Result<EnvelopeState, RowError> {
    for (name, state) in &STATES {
        if *name == wanted {
            return Ok(*state);
        }
    }
    Err(RowError::NoSuchLine)
}

fn name_of(state: EnvelopeState) -> &'static str {
    STATES[state as usize].0
}

/// The attenuation after each of four ticks, and the state: the state before them, the attenuation, the rate, the
/// level at which decay ends, and four counters.
pub fn tick(alloc: Global, words: &str) -> Result<String, RowError> {
    let (state, words) = parted(words, ' ')?;
    let [v, rate, level, one, two, three, four] = numbers::<7>(words)?;
    let mut envelope = Envelope {
        v: below(v, 1024)? as u16,
        state: state_of(state)?,
        on: true,
    };
    let (rate, level) = (below(rate, 64)?, below(level, 993)?);
    let mut text = String::new(alloc);
    for counter in [one, two, three, four] {
        envelope.tick(below(counter, 4096)?, rate, level);
        write!(text, "{} ", envelope.v)?;
    }
    text.push_str(name_of(envelope.state))?;
    Ok(text)
}

/// An envelope in sustain at 500 after a key: whether it was on and is on, and the rate.
pub fn key(alloc: Global, words: &str) -> Result<String, RowError> {
    let [was, on, rate] = numbers::<3>(words)?;
    let mut envelope = Envelope {
        v: 500,
        state: EnvelopeState::Sustain,
        on: was == 1,
    };
    envelope.key(on == 1, below(rate, 64)?);
    let name = name_of(envelope.state);
    let is_on = u8::from(envelope.on);
    Ok(format!(in alloc; "{} {name} {is_on}", envelope.v)?)
}

/// The pair of both sides of the FM chip and of a level of the PSG.
pub fn mixed(alloc: Global, words: &str) -> Result<String, RowError> {
    let [left, right, level] = numbers::<3>(words)?;
    let (left, right) = mix((left, right), level);
    Ok(format!(in alloc; "{left} {right}")?)
}

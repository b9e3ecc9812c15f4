use crate::machine::made::sounding;
use crate::machine::records::{count, entry, reported, words_read};
use crate::machine::state::State;
use core_rows::{chip_of, line_of_five, run_by_least_key, run_by_workers};
use row_lines::{RowError, first_word, hexadecimal, parted, place_of, readable, repeated};
use std::alloc::{AllocError, Global};
use std::sync::Wait;
use std::thread::Threads;

/// Carries out a step.
pub(crate) fn obey<R: Threads + Wait + Sync>(
    rt: &R,
    alloc: Global,
    state: &mut State,
    step: &str,
) -> Result<(), RowError> {
    let (verb, rest) = first_word(step);
    match verb {
        "cart" => state.set_cart(alloc, rest),
        "put" => state.put(alloc, rest),
        "pads" => state.set_pads(alloc, rest),
        "power" => state.power(alloc, rest),
        "to" => state.run(alloc, rest),
        "core" => state.begin_chips(alloc),
        "five" => begin_five(rt, alloc, state, rest),
        _ => Err(RowError::NoSuchLine),
    }
}

/// Begins the five small chips: at power-on, or after cycle 40,000.
fn begin_five<R: Threads + Wait + Sync>(
    rt: &R,
    alloc: Global,
    state: &mut State,
    how: &str,
) -> Result<(), RowError> {
    match how {
        "on" => state.begin_five(alloc),
        "least" => Ok(state.five.begin(run_by_least_key(alloc)?)),
        _ => run_five(rt, alloc, state, how),
    }
}

/// Begins the five small chips after cycle 40,000, by so many workers.
fn run_five<R: Threads + Wait + Sync>(
    rt: &R,
    alloc: Global,
    state: &mut State,
    how: &str,
) -> Result<(), RowError> {
    let workers = readable(how.parse::<u32>())?;
    if workers < 1 || workers > 5 {
        return Err(RowError::NoSuchLine);
    }
    Ok(state.five.begin(run_by_workers(rt, alloc, workers)?))
}

/// What is answered where this is asked and that is wanted.
pub(crate) fn answer<R: Threads + Wait + Sync>(
    rt: &R,
    alloc: Global,
    state: &mut State,
    asked: &str,
    wanted: &str,
) -> Result<String, RowError> {
    let (verb, rest) = first_word(asked);
    match verb {
        "entries" => count(alloc, &state.made.entries, rest),
        "entry" => entry(alloc, &state.made.entries, rest),
        "told" => reported(alloc, &state.made.entries, rest),
        "reads" => reads(alloc, state, wanted),
        "pairs" => pairs(alloc, &state.made.pairs, rest, wanted),
        "sounding" => sounding_text(alloc, &state.made.pairs),
        "frame" => frame(alloc, &state.made.frame, wanted),
        "workers" => state.workers(rt, alloc, rest),
        _ => answer_of_machine(alloc, state, asked, wanted),
    }
}

/// What is answered where the machine is asked.
fn answer_of_machine(
    alloc: Global,
    state: &mut State,
    asked: &str,
    wanted: &str,
) -> Result<String, RowError> {
    let (verb, rest) = first_word(asked);
    match verb {
        "ram" => ram(alloc, state, rest, wanted),
        "at" => Ok(format!(in alloc; "{}", state.machine()?.at())?),
        "least" => Ok(format!(in alloc; "{}", state.machine()?.least())?),
        "region" => region(alloc, state),
        "halted" => halted(alloc, state),
        _ => answer_of_core(alloc, state, asked),
    }
}

/// What is answered where a core is asked.
fn answer_of_core(alloc: Global, state: &mut State, asked: &str) -> Result<String, RowError> {
    if state.chips.is_begun() {
        return state.chips.ask(alloc, asked);
    }
    match first_word(asked) {
        ("line", _) => line_of_five(alloc, state.five.core()?),
        ("chip", number) => chip_of(alloc, state.five.core()?, number),
        _ => state.five.ask(alloc, asked),
    }
}

/// The values of words that were read from the VDP's data port.
fn reads(alloc: Global, state: &State, wanted: &str) -> Result<String, RowError> {
    repeated(alloc, &words_read(alloc, &state.made.entries)?, wanted)
}

/// The number of pairs; or the bytes of so many from one on.
fn pairs(alloc: Global, pairs: &[u8], asked: &str, wanted: &str) -> Result<String, RowError> {
    let Some((first, count)) = asked.split_once(' ') else {
        return Ok(format!(in alloc; "{}", pairs.len() / 4)?);
    };
    let first = place_of(first)?.wrapping_mul(4);
    let count = place_of(count)?.wrapping_mul(4);
    let rest = pairs.get(first..).ok_or(RowError::NoSuchName)?;
    repeated(
        alloc,
        rest.get(..count).ok_or(RowError::NoSuchName)?,
        wanted,
    )
}

fn sounding_text(alloc: Global, pairs: &[u8]) -> Result<String, RowError> {
    let [first, last] = sounding(pairs);
    Ok(format!(in alloc; "{first} {last}")?)
}

/// The frame, or `none`.
fn frame(alloc: Global, frame: &[u8], wanted: &str) -> Result<String, RowError> {
    if frame.is_empty() {
        return Ok(String::from_str(alloc, "none")?);
    }
    repeated(alloc, frame, wanted)
}

/// So many bytes of work RAM from an address on.
fn ram(alloc: Global, state: &State, asked: &str, wanted: &str) -> Result<String, RowError> {
    let (address, count) = parted(asked, ' ')?;
    let place = (hexadecimal(address)? % 0x1_0000) as usize;
    let ram = state.machine()?.main_chip().ram();
    let rest = ram.get(place..).ok_or(RowError::NoSuchName)?;
    let bytes = rest.get(..place_of(count)?).ok_or(RowError::NoSuchName)?;
    repeated(alloc, bytes, wanted)
}

fn region(alloc: Global, state: &State) -> Result<String, RowError> {
    let region = if state.machine()?.pal() {
        "pal"
    } else {
        "ntsc"
    };
    Ok(String::from_str(alloc, region)?)
}

/// The cycle at which the 68000 halted, or `none`.
fn halted(alloc: Global, state: &State) -> Result<String, RowError> {
    Ok(match state.machine()?.main_chip().halted() {
        Some(cycle) => format!(in alloc; "{cycle}")?,
        None => String::from_str(alloc, "none")?,
    })
}

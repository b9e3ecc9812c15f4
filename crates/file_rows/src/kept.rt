// States that the debugger keeps, of short images.
use md_debug::KeptStates;
use row_lines::{RowError, bytes, number, parted, readable};
use std::alloc::Global;

/// Drops so many of the newest states.
fn drop_newest(states: &mut KeptStates, count: &str) -> Result<(), RowError> {
    let count = readable(u32::try_from(number(count)?))?;
    if count > states.count() {
        return Err(RowError::NoSuchLine);
    }
    states.drop_newest(count);
    Ok(())
}

/// Keeps a state, of `CYCLE:BYTES`.
fn push(alloc: Global, states: &mut KeptStates, word: &str) -> Result<(), RowError> {
    let (cycle, image) = parted(word, ':')?;
    let image = bytes(alloc, image)?;
    if image.len() > 64 {
        return Err(RowError::NoSuchLine);
    }
    states.push(number(cycle)?, &image);
    Ok(())
}

/// Adds the first four bytes of the state that so many are newer than.
fn tell(
    alloc: Global,
    states: &mut KeptStates,
    newer: u32,
    text: &mut String,
) -> Result<(), RowError> {
    if newer >= states.count() {
        return Err(RowError::NoSuchName);
    }
    states.fetch(newer);
    let state = states.fetched();
    text.push(' ')?;
    text.push_str(&hex::encode_upper(alloc, state.get(..4).unwrap_or(state))?)?;
    Ok(())
}

/// The cycle of the oldest state.
fn oldest(alloc: Global, states: &KeptStates) -> Result<String, RowError> {
    if states.count() == 0 {
        return Err(RowError::NoSuchName);
    }
    Ok(format!(in alloc; "{}", states.oldest())?)
}

/// The cycle of the oldest of the states that are kept after pushes, `CYCLE:BYTES`, and drops, `-N`, and the first
/// four bytes of each, the newest first.
pub(crate) fn kept(alloc: Global, words: &str) -> Result<String, RowError> {
    let Ok(mut states) = KeptStates::make(alloc) else {
        return Err(RowError::Memory);
    };
    for word in words.split_whitespace() {
        match word.strip_prefix('-') {
            Some(count) => drop_newest(&mut states, count)?,
            None => push(alloc, &mut states, word)?,
        }
    }
    let mut text = oldest(alloc, &states)?;
    for newer in 0..states.count() {
        tell(alloc, &mut states, newer, &mut text)?;
    }
    Ok(text)
}

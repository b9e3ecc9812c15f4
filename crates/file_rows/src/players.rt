// What two players press, and what is expected of them.
use crate::fixture::reported;
use md_rollback::{InputFault, Inputs, MOST_FRAMES};
use row_lines::{RowError, first_word, number, parted, place_of, word};
use std::alloc::Global;

/// The inputs of a row, where there are any.
#[derive(Drop)]
pub(crate) struct Players {
    inputs: Option<Inputs>,
}

/// `ok`, or why an input is refused.
fn fault_text(alloc: Global, given: Result<(), InputFault>) -> Result<String, RowError> {
    match given {
        Ok(()) => reported(alloc, "ok"),
        Err(InputFault::Far { last }) => Ok(format!(in alloc; "far {last}")?),
        Err(InputFault::Given { kept }) => Ok(format!(in alloc; "given {kept:X}")?),
        Err(InputFault::Buttons) => reported(alloc, "buttons"),
    }
}

/// The buttons of both players in so many frames, each as `LOCAL/REMOTE`.
fn expected(alloc: Global, inputs: &Inputs, text: &str) -> Result<String, RowError> {
    let count = place_of(text)?.min(MOST_FRAMES);
    let Ok(frames) = inputs.expected(alloc, count) else {
        return Err(RowError::Memory);
    };
    let mut line = String::new(alloc);
    for (local, remote) in frames.iter() {
        if !line.is_empty() {
            line.push(' ')?;
        }
        line.push_str(&format!(in alloc; "{local:X}/{remote:X}")?)?;
    }
    Ok(line)
}

/// A player's input of a frame, `FRAME BUTTONS`.
fn give(
    alloc: Global,
    inputs: &mut Inputs,
    text: &str,
    is_local: bool,
) -> Result<String, RowError> {
    let (frame, buttons) = parted(text, ' ')?;
    let (frame, buttons) = (number(frame)?, word(buttons)?);
    let given = if is_local {
        inputs.local(frame, buttons)
    } else {
        inputs.remote(frame, buttons)
    };
    fault_text(alloc, given)
}

/// What is answered where inputs are asked.
fn answer_of(alloc: Global, inputs: &mut Inputs, text: &str) -> Result<String, RowError> {
    let (verb, rest) = first_word(text);
    match verb {
        "local" => give(alloc, inputs, rest, true),
        "remote" => give(alloc, inputs, rest, false),
        "expected" => expected(alloc, inputs, rest),
        "confirmed" => Ok(format!(in alloc; "{}", inputs.confirmed())?),
        _ => Err(RowError::NoSuchLine),
    }
}

impl Players {
    pub(crate) fn new() -> Players {
        Players { inputs: None }
    }

    /// The inputs of the row, which are none at first.
    fn make(&mut self, alloc: Global) -> Result<(), RowError> {
        match Inputs::make(alloc) {
            Ok(inputs) => {
                self.inputs = Some(inputs);
                Ok(())
            }
            Err(_) => Err(RowError::Memory),
        }
    }

    /// What is answered: `local FRAME BUTTONS`, `remote FRAME BUTTONS`, `expected N` and `confirmed`.
    pub(crate) fn answer(&mut self, alloc: Global, text: &str) -> Result<String, RowError> {
        if self.inputs.is_none() {
            self.make(alloc)?;
        }
        match &mut self.inputs {
            Some(inputs) => answer_of(alloc, inputs, text),
            None => Err(RowError::NoSuchName),
        }
    }
}

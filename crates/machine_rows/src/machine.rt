//! Rows of the machine and of its scheduler.

mod image;
mod made;
mod obey;
mod records;
mod runs;
mod state;

use crate::machine::obey::{answer, obey};
use crate::machine::state::State;
use row_lines::{Line, Tally, line_of};
use std::alloc::Global;
use std::rt::Files;
use std::sync::Wait;
use std::thread::Threads;
use std::{fs, io};

/// The files of rows.
const FILES: [&str; 5] = [
    "machine/scheduler",
    "machine/runs",
    "machine/processors",
    "machine/video",
    "machine/sound",
];

/// Carries out a step.
fn take_step<R: Print + Threads + Wait + Sync>(
    rt: &R,
    alloc: Global,
    state: &mut State,
    tally: &mut Tally,
    line: &str,
) -> io::Result<()> {
    let done = obey(rt, alloc, state, line);
    tally.note_step(rt, line, done)
}

/// Asks a question.
fn take_question<R: Print + Threads + Wait + Sync>(
    rt: &R,
    alloc: Global,
    state: &mut State,
    tally: &mut Tally,
    asked: &str,
    wanted: &str,
) -> io::Result<()> {
    let came = answer(rt, alloc, state, asked, wanted);
    tally.note_answer(rt, asked, wanted, came)
}

/// Takes a line.
fn take<R: Print + Threads + Wait + Sync>(
    rt: &R,
    alloc: Global,
    state: &mut State,
    tally: &mut Tally,
    line: &str,
) -> io::Result<()> {
    match line_of(line) {
        Line::Nothing => Ok(()),
        Line::Row(name) => {
            state.clear(alloc);
            tally.begin(rt, alloc, name)
        }
        Line::Step(step) => take_step(rt, alloc, state, tally, step),
        Line::Question(asked, wanted) => take_question(rt, alloc, state, tally, asked, wanted),
    }
}

/// Takes the lines of a file.
fn take_file<R: Alloc + Files + Print + Threads + Wait + Sync>(
    rt: &R,
    alloc: Global,
    state: &mut State,
    tally: &mut Tally,
    name: &str,
) -> io::Result<()> {
    let text = fs::read_to_string(rt, name)?;
    for line in text.lines() {
        take(rt, alloc, state, tally, line)?;
    }
    Ok(())
}

/// Carries out the rows, and prints what is wrong and how many rows there are.
pub fn take_rows<R: Alloc + Files + Print + Threads + Wait + Sync>(
    rt: &R,
    alloc: Global,
) -> io::Result<()> {
    let mut state = State::new(alloc);
    let mut tally = Tally::new(alloc);
    for name in FILES {
        take_file(rt, alloc, &mut state, &mut tally, name)?;
    }
    tally.end(rt)
}

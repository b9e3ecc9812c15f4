use crate::line::{Line, line_of};
use crate::row_error::RowError;
use crate::tally::Tally;
use std::alloc::Global;
use std::rt::Files;
use std::{fs, io};

/// What the rows of a program are carried out on.
pub trait Fixture {
    /// Begins a row, with nothing of the row before it.
    fn begin(&mut self) -> Result<(), RowError>;

    /// Carries out a line that asks nothing.
    fn obey(&mut self, line: &str) -> Result<(), RowError>;

    /// The answer to a question. What is wanted may be looked at for what the question leaves open, as what a read
    /// is answered; an answer that holds it is given as it is wanted.
    fn answer(&mut self, asked: &str, wanted: &str) -> Result<String, RowError>;
}

/// Begins a row.
fn begin<R: Print, F: Fixture>(
    rt: &R,
    alloc: Global,
    fixture: &mut F,
    tally: &mut Tally,
    name: &str,
) -> io::Result<()> {
    tally.begin(rt, alloc, name)?;
    tally.note_step(rt, "its begin", fixture.begin())
}

/// Takes a line, which is a row of its own unless a header is above it in its file. Answers whether one is after it.
fn take<R: Print, F: Fixture>(
    rt: &R,
    alloc: Global,
    fixture: &mut F,
    tally: &mut Tally,
    above: (&str, bool),
    line: Line<'_>,
) -> io::Result<bool> {
    let (file, is_headed) = above;
    match line {
        Line::Nothing => {}
        Line::Row(name) => {
            begin(rt, alloc, fixture, tally, name)?;
            return Ok(true);
        }
        Line::Step(step) => {
            if !is_headed {
                begin(rt, alloc, fixture, tally, file)?;
            }
            tally.note_step(rt, step, fixture.obey(step))?;
        }
        Line::Question(asked, wanted) => {
            if !is_headed {
                begin(rt, alloc, fixture, tally, file)?;
            }
            tally.note_answer(rt, asked, wanted, fixture.answer(asked, wanted))?;
        }
    }
    Ok(is_headed)
}

/// Takes the rows of a file.
fn take_file<R: Print + Files + AllocGlobal, F: Fixture>(
    rt: &R,
    alloc: Global,
    fixture: &mut F,
    tally: &mut Tally,
    file: &str,
) -> io::Result<()> {
    let text = fs::read_to_string(rt, file)?;
    let mut is_headed = false;
    for line in text.lines() {
        is_headed = take(rt, alloc, fixture, tally, (file, is_headed), line_of(line))?;
    }
    Ok(())
}

/// Carries out the rows of files, prints what is wrong, and then how many rows there were and how many of them were
/// wrong. In a file with heads `row NAME` the lines below one are its row, else each line is a row.
pub fn take_files<R: Print + Files + AllocGlobal, F: Fixture>(
    rt: &R,
    alloc: Global,
    fixture: &mut F,
    files: &[&str],
) -> io::Result<()> {
    let mut tally = Tally::new(alloc);
    for file in files {
        take_file(rt, alloc, fixture, &mut tally, file)?;
    }
    tally.end(rt)
}

// Rows, one after the other.
use crate::asked::ask;
use md_outer::FileDepot;
use row_files::{Store, build};
use row_lines::{Line, RowError, Tally, line_of, number, parted};
use std::alloc::Global;
use std::io;
use std::rt::Files;
use std::sync::Wait;
use std::thread::Threads;

/// What rows are carried out with: the folder of the data, the files in memory and the count of rows.
#[derive(Drop)]
pub(crate) struct Running<R: Files + Drop> {
    pub alloc: Global,
    pub folder: FileDepot<R>,
    pub store: Store,
    pub tally: Tally,
}

/// Has a fetch, a begin or append, or a print fail.
fn fail(store: &mut Store, which: &str) -> Result<(), RowError> {
    let (kind, count) = parted(which, ' ')?;
    let count = Some(number(count)?);
    match kind {
        "fetch" => store.failing[0] = count,
        "write" => store.failing[1] = count,
        "put" => store.failing[2] = count,
        _ => return Err(RowError::NoSuchLine),
    }
    Ok(())
}

/// Gives the row a file, or keeps one.
fn take_file<R: Files + Drop>(
    running: &mut Running<R>,
    verb: &str,
    rest: &str,
) -> Result<(), RowError> {
    let alloc = running.alloc;
    let (name, parts) = parted(rest, ' ')?;
    let bytes = build(alloc, &mut running.folder, &running.store, parts)?;
    match verb {
        "file" => running.store.give(alloc, name, bytes),
        "keep" => running.store.keep(alloc, name, bytes),
        _ => Err(RowError::NoSuchLine),
    }
}

/// Carries out a step that asks nothing.
fn prepare<R: Files + Drop>(running: &mut Running<R>, step: &str) -> Result<(), RowError> {
    let (verb, rest) = parted(step, ' ')?;
    if verb == "fail" {
        return fail(&mut running.store, rest);
    }
    take_file(running, verb, rest)
}

/// Carries out a step, and prints what is wrong with it.
fn take_step<R: Files + Drop, T: Print>(
    rt: &T,
    running: &mut Running<R>,
    step: &str,
) -> io::Result<()> {
    let done = prepare(running, step);
    running.tally.note_step(rt, step, done)
}

/// Asks a question, and prints an answer that is not wanted.
fn take_question<R: Files + Drop, T: Print + Threads + Wait + Sync>(
    rt: &T,
    running: &mut Running<R>,
    asked: &str,
    wanted: &str,
) -> io::Result<()> {
    let Running {
        alloc,
        folder,
        store,
        tally,
    } = running;
    let answer = ask(rt, *alloc, folder, store, asked, wanted);
    tally.note_answer(rt, asked, wanted, answer)
}

/// Carries out a line of a row.
fn take_line<R: Files + Drop, T: Print + Threads + Wait + Sync>(
    rt: &T,
    running: &mut Running<R>,
    line: &str,
) -> io::Result<()> {
    match line_of(line) {
        Line::Nothing => Ok(()),
        Line::Row(_) => running.tally.find_wrong(rt, line, "a head in a row"),
        Line::Step(step) => take_step(rt, running, step),
        Line::Question(asked, wanted) => take_question(rt, running, asked, wanted),
    }
}

/// Carries out a line of a row, with a number in the place of each `{}`.
fn take_filled<R: Files + Drop, T: Print + Threads + Wait + Sync>(
    rt: &T,
    running: &mut Running<R>,
    line: &str,
    count: &str,
) -> io::Result<()> {
    let line = line.replace(running.alloc, "{}", count)?;
    take_line(rt, running, &line)
}

/// Carries out the lines of a row with a number, which is spelled.
fn take_lines<R: Files + Drop, T: Print + Threads + Wait + Sync>(
    rt: &T,
    running: &mut Running<R>,
    lines: &str,
    count: &str,
) -> io::Result<()> {
    running.store.begin(running.alloc);
    for line in lines.lines() {
        take_filled(rt, running, line, count)?;
    }
    Ok(())
}

/// The same, of a number that is not spelled yet.
fn take_numbered<R: Files + Drop, T: Print + Threads + Wait + Sync>(
    rt: &T,
    running: &mut Running<R>,
    lines: &str,
    count: u64,
) -> io::Result<()> {
    let count = format!(in running.alloc; "{count}")?;
    take_lines(rt, running, lines, &count)
}

/// The numbers `FIRST LAST`.
fn range_of(text: &str) -> Result<(u64, u64), RowError> {
    let (first, last) = parted(text, ' ')?;
    Ok((number(first)?, number(last)?))
}

/// The numbers of a row that begins with `for FIRST LAST`, and its other lines; 0 alone where it begins otherwise.
fn numbers_of(lines: &str) -> Result<((u64, u64), &str), RowError> {
    let Some(looped) = lines.strip_prefix("for ") else {
        return Ok(((0, 0), lines));
    };
    let (range, rest) = parted(looped, '\n')?;
    Ok((range_of(range)?, rest))
}

/// Carries out the lines of a row with each of these numbers.
fn take_each<R: Files + Drop, T: Print + Threads + Wait + Sync>(
    rt: &T,
    running: &mut Running<R>,
    lines: &str,
    range: (u64, u64),
) -> io::Result<()> {
    for count in range.0..range.1.saturating_add(1) {
        take_numbered(rt, running, lines, count)?;
    }
    Ok(())
}

/// Carries out a row, with each of its numbers.
fn take_row<R: Files + Drop, T: Print + Threads + Wait + Sync>(
    rt: &T,
    running: &mut Running<R>,
    row: &str,
) -> io::Result<()> {
    let (name, lines) = row.split_once('\n').unwrap_or((row, ""));
    running.tally.begin(rt, running.alloc, name)?;
    match numbers_of(lines) {
        Ok((range, lines)) => take_each(rt, running, lines, range),
        Err(error) => running.tally.find_wrong(rt, "for", error.text()),
    }
}

/// Carries out the rows of a text, and the steps before the first one.
pub(crate) fn carry_out<R: Files + Drop, T: Print + Threads + Wait + Sync>(
    rt: &T,
    running: &mut Running<R>,
    text: &str,
) -> io::Result<()> {
    let mut rows = text.split("\nrow ");
    take_lines(rt, running, rows.next().unwrap_or(""), "0")?;
    for row in rows {
        take_row(rt, running, row)?;
    }
    Ok(())
}

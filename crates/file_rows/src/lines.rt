// Lines of scripts.
use crate::fixture::reported;
use debug_text::{Command, Misread, read_command};
use md_rollback::{Line, Player, read_line};
use row_lines::{RowError, bytes};
use std::alloc::Global;

/// What is between quotes.
fn quoted(text: &str) -> Result<&str, RowError> {
    let rest = text.strip_prefix('"').ok_or(RowError::NoSuchLine)?;
    rest.strip_suffix('"').ok_or(RowError::NoSuchLine)
}

/// What a line of the debugger's script asks for, or why it is misread.
pub(crate) fn command(alloc: Global, text: &str) -> Result<String, RowError> {
    match read_command(quoted(text)?) {
        Ok(Command::Step(count)) => Ok(format!(in alloc; "step {count}")?),
        Ok(Command::RunTo(cycle)) => Ok(format!(in alloc; "run {cycle}")?),
        Ok(Command::Back(count)) => Ok(format!(in alloc; "back {count}")?),
        Ok(Command::Regs) => reported(alloc, "regs"),
        Ok(Command::Mem(at, count)) => Ok(format!(in alloc; "mem {at:X} {count}")?),
        Ok(Command::Dis(at, count)) => Ok(format!(in alloc; "dis {at:X} {count}")?),
        Ok(Command::Trace(count)) => Ok(format!(in alloc; "trace {count}")?),
        Ok(Command::Report) => reported(alloc, "report"),
        Err(Misread::UnknownWord) => reported(alloc, "unknown word"),
        Err(Misread::BadNumber) => reported(alloc, "bad number"),
    }
}

/// What a line of a session's script asks for.
fn line_text(alloc: Global, line: Option<Line>) -> Result<String, RowError> {
    match line {
        Some(Line::Advance) => reported(alloc, "advance"),
        Some(Line::Press(Player::Local, frame, buttons)) => {
            Ok(format!(in alloc; "local {frame} {buttons:X}")?)
        }
        Some(Line::Press(Player::Remote, frame, buttons)) => {
            Ok(format!(in alloc; "remote {frame} {buttons:X}")?)
        }
        None => reported(alloc, "none"),
    }
}

/// What a line of a session's script asks for, which is a text in quotes or bytes.
pub(crate) fn press(alloc: Global, text: &str) -> Result<String, RowError> {
    match quoted(text) {
        Ok(line) => line_text(alloc, read_line(line.as_bytes())),
        Err(_) => line_text(alloc, read_line(&bytes(alloc, text)?)),
    }
}

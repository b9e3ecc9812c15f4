//! Reading a line of a script.
ghost use Rattle.std.specs.Prelude.{◌≡◌, ◌&&◌, ◌==◌, ◌%◌, ◌≤◌, ◌<◌, ◌^◌, option_map, option_and_then, IfSome};
ghost use Rattle.std.specs.List.{list_all};
ghost use Rattle.std.specs.Option.{option_copied};
ghost use Rattle.debug_text.specs.Commands as meaning;

use crate::command::{Command, CommandWord, Misread};
use crate::number::read_address;
use md_word::clock::LAST_CYCLE;
use text_lines::read_decimal;

/// The address bus has 24 bits.
const ADDRESSES: u32 = 0x100_0000;

/// The most items of a reply.
const MOST: u32 = 256;

/// The most steps of a line.
const STEPS: u32 = 1_000_000;

/// Reads a line of a script, without its line feed. It fails with `UnknownWord` where the line has a byte that
/// is not ASCII or begins with no command's word, and else with `BadNumber` where a number is missing, is one
/// too many, is no number or is out of range.
pub fn read_command(line: &str) -> Result<Command, Misread>
    ensures { result ≡ meaning.command_of line.now }
{
    if !is_ascii(line) {
        return Err(Misread::UnknownWord);
    }
    match word_of(word_in(line)) {
        Some(word) => match commanded(word, following(line)) {
            Some(command) => Ok(command),
            None => Err(Misread::BadNumber),
        },
        None => Err(Misread::UnknownWord),
    }
}

/// Whether all of its bytes are ASCII.
pub fn is_ascii(line: &str) -> bool
    ensures { result ≡ list_all meaning.is_seven_bit line.now }
{
    line.as_bytes().iter().all(|byte| *byte < 128)
}

/// The first word of a text, up to its first blank.
pub fn word_in(text: &str) -> &str
    ensures { result.now ≡ meaning.word_in text.now }
{
    match text.split_once(' ') {
        Some((word, _)) => word,
        None => text,
    }
}

/// What follows the first blank of a text; `None` where it has no blank.
pub fn following(text: &str) -> Option<&str>
    ensures { option_copied result ≡ meaning.following text.now }
{
    match text.split_once(' ') {
        Some((_, following)) => Some(following),
        None => None,
    }
}

fn word_of(word: &str) -> Option<CommandWord>
    ensures { result ≡ meaning.word_of word.now }
{
    if word == "step" {
        return Some(CommandWord::Step);
    }
    if word == "run" {
        return Some(CommandWord::Run);
    }
    if word == "back" {
        return Some(CommandWord::Back);
    }
    if word == "regs" {
        return Some(CommandWord::Regs);
    }
    if word == "mem" {
        return Some(CommandWord::Mem);
    }
    if word == "dis" {
        return Some(CommandWord::Dis);
    }
    if word == "trace" {
        return Some(CommandWord::Trace);
    }
    if word == "report" {
        return Some(CommandWord::Report);
    }
    None
}

/// What a line with this word asks for, by what follows the word. `None` where that is not the numbers that the
/// word asks for, each in its range.
fn commanded(word: CommandWord, text: Option<&str>) -> Option<Command>
    ensures { result ≡ meaning.commanded word (option_copied text.entry) }
{
    match word {
        CommandWord::Step => match short_number(1, STEPS, text) {
            Some(count) => Some(Command::Step(count)),
            None => None,
        },
        CommandWord::Run => match number(0, LAST_CYCLE, text) {
            Some(cycle) => Some(Command::RunTo(cycle)),
            None => None,
        },
        CommandWord::Back => match number(1, u64::MAX, text) {
            Some(count) => Some(Command::Back(count)),
            None => None,
        },
        CommandWord::Regs => bare(Command::Regs, text),
        CommandWord::Mem => match place(text) {
            Some((at, count)) => Some(Command::Mem(at, count)),
            None => None,
        },
        CommandWord::Dis => match place(text) {
            Some((at, count)) if at % 2 == 0 => Some(Command::Dis(at, count)),
            _ => None,
        },
        CommandWord::Trace => match short_number(1, MOST, text) {
            Some(count) => Some(Command::Trace(count)),
            None => None,
        },
        CommandWord::Report => bare(Command::Report, text),
    }
}

/// A command without numbers; `None` where anything follows its word.
fn bare(command: Command, text: Option<&str>) -> Option<Command>
    ensures { result ≡ meaning.bare command (option_copied text.entry) }
{
    match text {
        Some(_) => None,
        None => Some(command),
    }
}

/// The one number that a text is; `None` where it is none, or out of bounds.
fn number(low: u64, high: u64, text: Option<&str>) -> Option<u64>
    ensures { result ≡ meaning.number_in low high (option_copied text.entry) }
{
    match text {
        Some(word) => match read_decimal(word) {
            Some(number) if number >= low && number <= high => Some(number),
            _ => None,
        },
        None => None,
    }
}

/// The same within shorter bounds.
fn short_number(low: u32, high: u32, text: Option<&str>) -> Option<u32>
    ensures { result ≡ meaning.number_in low high (option_copied text.entry) }
{
    match number(u64::from(low), u64::from(high), text) {
        Some(number) => Some(number as u32),
        None => None,
    }
}

/// An address, and how many items there are from there on, 1 to 256; `None` where the text is not the two, each
/// with its digits and in its range.
fn place(text: Option<&str>) -> Option<(u32, u32)>
    ensures { result ≡ option_and_then meaning.place_in (option_copied text.entry) }
{
    match text {
        Some(text) => place_in(text),
        None => None,
    }
}

fn place_in(text: &str) -> Option<(u32, u32)>
    ensures { result ≡ meaning.place_in text.now }
{
    match read_address(word_in(text)) {
        Some(at) => match short_number(1, MOST, following(text)) {
            Some(count) => Some((at % ADDRESSES, count)),
            None => None,
        },
        None => None,
    }
}

ghost use Rattle.std.specs.Prelude.{◌≡◌, ◌⊎◌, ◌++◌, Some, OnOk, OnErr, codes, decimal};
ghost use Rattle.std.specs.Option.{option_copied};
ghost use Rattle.hex.specs.Hex.{encode_lower};
ghost use Rattle.md_outer.specs.Outside.{PutsText};
ghost use Rattle.md_top.specs.Answers.{PutsAll, PutsCommandOutcome, PutsPart, Reports};
ghost use Rattle.md_top.specs.CommandOutcomes.{failed_status, status_of};
ghost use Rattle.md_top.specs.Texts.{carts_line, counts_of, file_line, halted_line, lines_of, number_line, numbers_line};
ghost use Rattle.md_args.specs.Shown.{shown_command};

use crate::assembling::put_source_line;
use crate::command_outcome::CommandOutcome;
use crate::converting::put_input_fault;
use crate::debugging::put_script_line;
use crate::put::{put_three, put_two};
use crate::report_demo::put_summary;
use crate::rolling::{put_inputs_line, put_rolled};
use hex::encode_to_slice;
use itoa::Buffer;
use md_args::CommandWords;
use md_outer::{Failed, Sink};
use run_command::pairs_between;

/// Puts what a command results in, and answers its status.
pub(crate) fn report<S: Sink>(
    command: &CommandWords<'_>,
    command_outcome: CommandOutcome,
    out: &mut S,
) -> u8
    ensures { Reports S.observable (Some (shown_command command.now)) command_outcome (S.state out.old) (S.state out.new) result }
{
    let status = command_outcome.status();
    status_after(status, put_command_outcome(command, command_outcome, out))
}

/// The status of an outcome after what is put of it: where that could not be put, one that is 0 becomes 13.
fn status_after(status: u8, put: Result<(), Failed>) -> u8
    ensures ok { OnOk put (result ≡ status) }
    ensures err { OnErr put (result ≡ failed_status status) }
{
    match put {
        Ok(()) => status,
        Err(Failed) => match status {
            0 => 13,
            _ => status,
        },
    }
}

/// Puts what a command results in: the output, or the line of a refusal.
fn put_command_outcome<S: Sink>(
    command: &CommandWords<'_>,
    command_outcome: CommandOutcome,
    out: &mut S,
) -> Result<(), Failed>
    ensures { PutsCommandOutcome S.observable (Some (shown_command command.now)) command_outcome (S.state out.old) (S.state out.new) result }
{
    match command_outcome {
        CommandOutcome::Shown(lines) => out.put(lines.bytes()),
        CommandOutcome::Done {
            from,
            frames,
            accesses,
            halted,
        } => put_lines(out, from, command.end(), frames, accesses, halted),
        CommandOutcome::DemoDone(summary) => put_summary(out, command.end(), &summary),
        CommandOutcome::Converted(size) => put_number(out, "bytes ", size),
        CommandOutcome::Played | CommandOutcome::ReplyFault => Ok(()),
        CommandOutcome::RolledBack(rolled) => put_rolled(out, &rolled),
        CommandOutcome::Usage => out.put(b"refused: usage\n"),
        CommandOutcome::ReadFault(which) => put_file(
            out,
            "fault: reading ",
            command.input(which),
            "\n",
        ),
        CommandOutcome::WriteFault(which) => put_file(
            out,
            "fault: writing ",
            command.output(which),
            "\n",
        ),
        CommandOutcome::Short => out.put(b"refused: cartridge: short\n"),
        CommandOutcome::NoMark => out.put(b"refused: cartridge: no mark\n"),
        CommandOutcome::RecordingInvalid(place) => put_number(out, "refused: recording at ", place),
        CommandOutcome::StateInvalid(place) => put_number(out, "refused: state at ", place),
        CommandOutcome::OtherCart { kept, given } => put_digests(out, &kept, &given),
        CommandOutcome::Behind(from) => put_numbers(
            out,
            "refused: cycle ",
            command.end(),
            " is not above ",
            from,
        ),
        CommandOutcome::Memory | CommandOutcome::ScriptMemory => out.put(b"refused: memory\n"),
        CommandOutcome::TooFar => put_cycle(out, command.end(), " is too far\n"),
        CommandOutcome::TooLong(which) => put_file(
            out,
            "refused: ",
            command.input(which),
            " is too long\n",
        ),
        CommandOutcome::ScriptRefused { line, fault } => put_script_line(out, line, fault),
        CommandOutcome::SourceRefused(line, kind) => put_source_line(out, line, kind),
        CommandOutcome::InputRefused(fault) => put_input_fault(out, fault),
        CommandOutcome::LineRefused { line, fault } => put_inputs_line(out, line, fault),
    }
}

/// Puts the line of a refusal, and answers its status, whether the line could be put or not.
pub(crate) fn refuse<S: Sink>(out: &mut S, command_outcome: CommandOutcome, line: &str) -> u8
    ensures status { result ≡ status_of command_outcome }
    ensures put { PutsAll S.observable line.now (S.state out.old) (S.state out.new)
        ⊎ PutsPart S.observable line.now (S.state out.old) (S.state out.new) }
{
    let _ = out.put(line.as_bytes());
    command_outcome.status()
}

/// Puts the line of a file, by its name.
fn put_file<S: Sink>(out: &mut S, word: &str, name: Option<&str>, end: &str) -> Result<(), Failed>
    ensures { PutsText S.observable (file_line word.now (option_copied name.entry) end.now) (S.state out.old) (S.state out.new) result }
{
    match name {
        Some(name) => put_three(out, word, name.as_bytes(), end),
        None => put_three(out, word, &[], end),
    }
}

/// Puts the line of the cycle of a run's end.
fn put_cycle<S: Sink>(out: &mut S, cycle: u64, why: &str) -> Result<(), Failed>
    ensures { PutsText S.observable (codes "refused: cycle " ++ decimal cycle ++ why.now) (S.state out.old) (S.state out.new) result }
{
    let mut digits = Buffer::new();
    put_three(out, "refused: cycle ", digits.format(cycle).as_bytes(), why)
}

/// Puts the line of a saved state of another cartridge.
fn put_digests<S: Sink>(out: &mut S, kept: &[u8; 32], given: &[u8; 32]) -> Result<(), Failed>
    ensures { PutsText S.observable (carts_line kept.now given.now) (S.state out.old) (S.state out.new) result }
{
    let first = hexadecimal(kept);
    match put_three(out, "refused: state of another cartridge ", &first, " ") {
        Ok(()) => put_digest(out, given),
        Err(failed) => Err(failed),
    }
}

/// Puts a digest and the end of its line.
fn put_digest<S: Sink>(out: &mut S, digest: &[u8; 32]) -> Result<(), Failed>
    ensures { PutsText S.observable (encode_lower digest.now ++ codes "\n") (S.state out.old) (S.state out.new) result }
{
    let digits = hexadecimal(digest);
    put_three(out, "", &digits, "\n")
}

/// A digest in hexadecimal.
pub(crate) fn hexadecimal(digest: &[u8; 32]) -> [u8; 64]
    ensures { result ≡ encode_lower digest.now }
{
    let mut digits = [0; 64];
    let _ = encode_to_slice(digest.as_slice(), &mut digits);
    digits
}

/// Puts the lines of a run that ends well.
pub(crate) fn put_lines<S: Sink>(
    out: &mut S,
    from: u64,
    end: u64,
    frames: u64,
    accesses: u64,
    halted: Option<u64>,
) -> Result<(), Failed>
    ensures { PutsText S.observable (lines_of from end frames accesses halted) (S.state out.old) (S.state out.new) result }
{
    match put_counts(out, from, end, frames, accesses) {
        Ok(()) => put_halted(out, halted),
        Err(failed) => Err(failed),
    }
}

/// Puts the line of a 68000 that is halted, if it is.
fn put_halted<S: Sink>(out: &mut S, halted: Option<u64>) -> Result<(), Failed>
    ensures { PutsText S.observable (halted_line halted) (S.state out.old) (S.state out.new) result }
{
    match halted {
        Some(since) => put_number(out, "halted at ", since),
        None => Ok(()),
    }
}

/// Puts how far a run went, and how much it made.
fn put_counts<S: Sink>(
    out: &mut S,
    from: u64,
    end: u64,
    frames: u64,
    accesses: u64,
) -> Result<(), Failed>
    ensures { PutsText S.observable (counts_of from end frames accesses) (S.state out.old) (S.state out.new) result }
{
    match put_course(out, from, end, frames) {
        Ok(()) => put_made(out, pairs_between(from, end), accesses),
        Err(failed) => Err(failed),
    }
}

/// Puts the cycles from which to which a run went, and how many frames it finished.
fn put_course<S: Sink>(out: &mut S, from: u64, end: u64, frames: u64) -> Result<(), Failed>
    ensures { PutsText S.observable (numbers_line (codes "cycles ") from (codes " to ") end
        ++ number_line (codes "frames ") frames) (S.state out.old) (S.state out.new) result }
{
    match put_numbers(out, "cycles ", from, " to ", end) {
        Ok(()) => put_number(out, "frames ", frames),
        Err(failed) => Err(failed),
    }
}

/// Puts how many samples and accesses a run made.
fn put_made<S: Sink>(out: &mut S, samples: u64, accesses: u64) -> Result<(), Failed>
    ensures { PutsText S.observable (number_line (codes "samples ") samples ++ number_line (codes "accesses ") accesses)
        (S.state out.old) (S.state out.new) result }
{
    match put_number(out, "samples ", samples) {
        Ok(()) => put_number(out, "accesses ", accesses),
        Err(failed) => Err(failed),
    }
}

/// Puts a line of two words, each with a number.
fn put_numbers<S: Sink>(
    out: &mut S,
    first: &str,
    number: u64,
    second: &str,
    other: u64,
) -> Result<(), Failed>
    ensures { PutsText S.observable (numbers_line first.now number second.now other) (S.state out.old) (S.state out.new) result }
{
    let mut digits = Buffer::new();
    match put_two(out, first, digits.format(number).as_bytes()) {
        Ok(()) => put_number(out, second, other),
        Err(failed) => Err(failed),
    }
}

/// Puts a line of a word and a number.
pub(crate) fn put_number<S: Sink>(out: &mut S, word: &str, number: u64) -> Result<(), Failed>
    ensures { PutsText S.observable (number_line word.now number) (S.state out.old) (S.state out.new) result }
{
    let mut digits = Buffer::new();
    put_three(out, word, digits.format(number).as_bytes(), "\n")
}

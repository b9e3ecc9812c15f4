ghost use Rattle.std.specs.Prelude.{◌≡◌, IfOk, map, option_and_then, string_bytes};
ghost use Rattle.std.specs.Option.{option_copied, option_map};
ghost use Rattle.clap.specs.Matches.{found_of};
ghost use Rattle.clap.specs.Walk.{rows_of};
ghost use Rattle.text_lines.specs.Digits.{decimal_of};
ghost use Rattle.md_args.specs.Parse.{asked_by, chosen_by, found_by};
ghost use Rattle.md_args.specs.Shown.{shown_command, shown_values};
ghost use Rattle.md_args.specs.Commands as meaning;
ghost use Rattle.md_args.specs.Words as asked;

use crate::asm_reading::asm_chosen;
use crate::building::command_for;
use crate::command_words::CommandWords;
use crate::convert_reading::conversion_chosen;
use crate::convert_words::Product;
use crate::debug_reading::debug_chosen;
use crate::demo_reading::demo_chosen;
use crate::names::{have_names, is_name};
use crate::numbers::read_workers;
use crate::parse::parse;
use crate::rollback_reading::rollback_chosen;
use crate::run_values::RunValues;
use crate::run_words::RunWords;
use crate::verb::Verb;
use clap::ArgMatches;
use std::alloc::{AllocError, Global};
use text_lines::read_decimal;

/// Reads the words of the command line, those after the program's name. It is None where they ask for nothing that
/// there is, and fails only where memory runs out.
///
/// They are `info ROM`, `run ROM --cycles N` with `--in P`, `--load S`, `--save S`, `--frames F`,
/// `--sound W`, `--journal J`, `--workers K` and, where no `--load` is, `--pal` where they are wanted,
/// `demo NUMBER --cycles N --workers W`, with `--pal` where it is wanted, `vgm JOURNAL OUT` or `play VGM OUT`,
/// with it too, `asm SOURCE OUT`, with `--list L`, `debug ROM SCRIPT`, or `rollback ROM INPUTS --window W`.
/// Options stand in any order among the other words, each at most once, as two words or as `--name=value`;
/// `--` ends the options. Names are not empty, do not begin with a hyphen, and are pairwise different. Numbers
/// are 1 to 20 decimal digits with a value below 2^64; K and the W of `demo` are 1 to 5, and that of `rollback`
/// is 1 to 16.
#[tactic(auto, unfolding(crate::specs::Commands::command_of))]
pub fn read_words<'a>(
    alloc: Global,
    words: &'a [String],
) -> Result<Option<CommandWords<'a>>, AllocError>
    ensures { IfOk result (λ command. option_map shown_command command ≡ meaning.command_of (map string_bytes words.now)) }
{
    let [command, rest @ ..] = words else {
        return Ok(None);
    };
    match Verb::read(command) {
        Some(verb) => read_after(alloc, verb, rest),
        None => Ok(None),
    }
}

/// Reads the words after a verb.
fn read_after<'a>(
    alloc: Global,
    verb: Verb,
    words: &'a [String],
) -> Result<Option<CommandWords<'a>>, AllocError>
    ensures { IfOk result (λ command. option_map shown_command command ≡ asked_by verb (map string_bytes words.now)) }
{
    let command = command_for(alloc, verb)?;
    match parse(command, words)? {
        Some(matches) => Ok(chosen(verb, &matches)),
        None => Ok(None),
    }
}

/// What a verb asks for with what the matches have.
fn chosen<'a>(verb: Verb, matches: &ArgMatches<'a>) -> Option<CommandWords<'a>>
    ensures { option_map shown_command result ≡ chosen_by verb (found_by (rows_of (found_of matches.now))) }
{
    match verb {
        Verb::Info => info_given(value(matches, "rom")),
        Verb::Run => run_chosen(matches),
        Verb::Demo => demo_chosen(matches),
        Verb::Vgm => conversion_chosen(Product::Vgm, matches),
        Verb::Play => conversion_chosen(Product::Sound, matches),
        Verb::Asm => asm_chosen(matches),
        Verb::Debug => debug_chosen(matches),
        Verb::Rollback => rollback_chosen(matches),
    }
}

/// The lines of a header, if what is given can be the cartridge's name.
fn info_given<'a>(word: Option<&'a str>) -> Option<CommandWords<'a>>
    ensures { option_map shown_command result ≡ option_map asked.Info (meaning.info_from (option_copied word.entry)) }
{
    match word {
        Some(word) if is_name(word) => Some(CommandWords::Info(word)),
        _ => None,
    }
}

/// The run that the matches have.
fn run_chosen<'a>(matches: &ArgMatches<'a>) -> Option<CommandWords<'a>>
    ensures { option_map shown_command result ≡ option_map asked.RunCart (meaning.run_by (found_by (rows_of (found_of matches.now)))) }
{
    run_given(&values_of(matches))
}

/// What the matches have for each argument of a run.
fn values_of<'a>(matches: &ArgMatches<'a>) -> RunValues<'a>
    ensures { shown_values result ≡ meaning.values_by (found_by (rows_of (found_of matches.now))) }
{
    RunValues {
        rom: value(matches, "rom"),
        cycles: value(matches, "cycles"),
        recording: value(matches, "in"),
        load: value(matches, "load"),
        save: value(matches, "save"),
        frames: value(matches, "frames"),
        sound: value(matches, "sound"),
        journal: value(matches, "journal"),
        workers: value(matches, "workers"),
        pal: value(matches, "pal"),
    }
}

/// The value of an argument, if it has one.
pub(crate) fn value<'a>(matches: &ArgMatches<'a>, name: &str) -> Option<&'a str>
    ensures { option_copied result ≡ found_by (rows_of (found_of matches.now)) name.now }
{
    matches.get_str(name)
}

/// The run of these values, if those that it needs are there and all can be read.
fn run_given<'a>(values: &RunValues<'a>) -> Option<CommandWords<'a>>
    ensures { option_map shown_command result ≡ option_map asked.RunCart (meaning.run_given (shown_values values.now)) }
{
    if !have_names(values) {
        return None;
    }
    if !is_one_region(values) {
        return None;
    }
    match (
        values.rom,
        count(values.cycles),
        read_workers(values.workers),
    ) {
        (Some(rom), Some(cycles), Some(workers)) => Some(CommandWords::Run(RunWords {
            rom,
            cycles,
            recording: values.recording,
            load: values.load,
            save: values.save,
            frames: values.frames,
            sound: values.sound,
            journal: values.journal,
            workers,
            pal: values.pal.is_some(),
        })),
        _ => None,
    }
}

/// Whether the region is chosen where no saved state is named, which has its own.
fn is_one_region(values: &RunValues<'_>) -> bool
    ensures { result ≡ meaning.is_one_region (shown_values values.now) }
{
    values.load.is_none() || values.pal.is_none()
}

/// A number that has to be there.
pub(crate) fn count(word: Option<&str>) -> Option<u64>
    ensures { result ≡ option_and_then decimal_of (option_copied word.entry) }
{
    match word {
        Some(word) => read_decimal(word),
        None => None,
    }
}

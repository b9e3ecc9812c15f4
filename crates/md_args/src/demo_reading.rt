ghost use Rattle.std.specs.Prelude.{◌≡◌, ◌≤◌, IfSome};
ghost use Rattle.std.specs.Option.{option_copied, option_map};
ghost use Rattle.clap.specs.Matches.{found_of};
ghost use Rattle.clap.specs.Walk.{rows_of};
ghost use Rattle.md_args.specs.Parse.{found_by};
ghost use Rattle.md_args.specs.Shown.{shown_command};
ghost use Rattle.md_args.specs.Commands as meaning;
ghost use Rattle.md_args.specs.Words as asked;

use crate::command_words::CommandWords;
use crate::demo_words::DemoWords;
use crate::numbers::read_workers;
use crate::reading::{count, value};
use clap::ArgMatches;

/// The run that the matches have.
pub(crate) fn demo_chosen<'a>(matches: &ArgMatches<'a>) -> Option<CommandWords<'a>>
    ensures { option_map shown_command result ≡ option_map asked.RunDemo (meaning.demo_by (found_by (rows_of (found_of matches.now)))) }
{
    demo_given(
        value(matches, "number"),
        value(matches, "cycles"),
        value(matches, "workers"),
        value(matches, "pal").is_some(),
    )
}

/// The run of these values, if all are there and can be read.
fn demo_given<'a>(
    number: Option<&str>,
    cycles: Option<&str>,
    workers: Option<&str>,
    pal: bool,
) -> Option<CommandWords<'a>>
    ensures { option_map shown_command result ≡ option_map asked.RunDemo (meaning.demo_given (option_copied number.entry) (option_copied cycles.entry) (option_copied workers.entry) pal) }
{
    match (count(number), count(cycles), wanted_workers(workers)) {
        (Some(number), Some(cycles), Some(workers)) => Some(CommandWords::Demo(DemoWords {
            number,
            cycles,
            workers,
            pal,
        })),
        _ => None,
    }
}

/// A number of workers that has to be there.
fn wanted_workers(word: Option<&str>) -> Option<u32>
    ensures number { result ≡ meaning.wanted_workers (option_copied word.entry) }
    ensures some { IfSome result (λ workers. 1 ≤ workers) }
    ensures few { IfSome result (λ workers. workers ≤ 5) }
{
    match word {
        Some(word) => read_workers(Some(word)),
        None => None,
    }
}

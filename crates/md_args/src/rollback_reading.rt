ghost use Rattle.std.specs.Prelude.{◌≡◌, ◌≤◌, IfSome};
ghost use Rattle.std.specs.Option.{option_copied, option_map};
ghost use Rattle.clap.specs.Matches.{found_of};
ghost use Rattle.clap.specs.Walk.{rows_of};
ghost use Rattle.md_args.specs.Parse.{found_by};
ghost use Rattle.md_args.specs.Shown.{shown_command};
ghost use Rattle.md_args.specs.Commands as meaning;
ghost use Rattle.md_args.specs.Words as asked;

use crate::command_words::CommandWords;
use crate::names::are_names;
use crate::reading::{count, value};
use crate::rollback_words::RollbackWords;
use clap::ArgMatches;

/// The session that the matches have.
pub(crate) fn rollback_chosen<'a>(matches: &ArgMatches<'a>) -> Option<CommandWords<'a>>
    ensures { option_map shown_command result ≡ option_map asked.Rollback (meaning.rolling_by (found_by (rows_of (found_of matches.now)))) }
{
    rollback_given(
        value(matches, "rom"),
        value(matches, "inputs"),
        value(matches, "window"),
    )
}

/// The session of these names with this window, if all are there and can be read.
fn rollback_given<'a>(
    rom: Option<&'a str>,
    inputs: Option<&'a str>,
    window: Option<&'a str>,
) -> Option<CommandWords<'a>>
    ensures { option_map shown_command result ≡ option_map asked.Rollback (meaning.rolling_given (option_copied rom.entry) (option_copied inputs.entry) (option_copied window.entry)) }
{
    match (rom, inputs, wanted_window(window)) {
        (Some(rom), Some(inputs), Some(window)) if are_names(&[Some(rom), Some(inputs)]) => {
            Some(CommandWords::Rollback(RollbackWords {
                rom,
                inputs,
                window,
            }))
        }
        _ => None,
    }
}

/// A window of 1 to 16 frames, which has to be there.
fn wanted_window(word: Option<&str>) -> Option<u32>
    ensures number { result ≡ meaning.wanted_window (option_copied word.entry) }
    ensures some { IfSome result (λ window. 1 ≤ window) }
    ensures few { IfSome result (λ window. window ≤ 16) }
{
    match count(word) {
        Some(window) if window >= 1 && window <= 16 => Some(window as u32),
        _ => None,
    }
}

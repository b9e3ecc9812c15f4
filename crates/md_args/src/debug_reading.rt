ghost use Rattle.std.specs.Prelude.{◌≡◌};
ghost use Rattle.std.specs.Option.{option_copied, option_map};
ghost use Rattle.clap.specs.Matches.{found_of};
ghost use Rattle.clap.specs.Walk.{rows_of};
ghost use Rattle.md_args.specs.Parse.{found_by};
ghost use Rattle.md_args.specs.Shown.{shown_command};
ghost use Rattle.md_args.specs.Commands as meaning;
ghost use Rattle.md_args.specs.Words as asked;

use crate::command_words::CommandWords;
use crate::debug_words::DebugWords;
use crate::names::are_names;
use crate::reading::value;
use clap::ArgMatches;

/// The session that the matches have.
pub(crate) fn debug_chosen<'a>(matches: &ArgMatches<'a>) -> Option<CommandWords<'a>>
    ensures { option_map shown_command result ≡ option_map asked.Debug (meaning.debugging_by (found_by (rows_of (found_of matches.now)))) }
{
    debug_given(value(matches, "rom"), value(matches, "script"))
}

/// The session of these names, if both are there and can be names of two files.
fn debug_given<'a>(rom: Option<&'a str>, script: Option<&'a str>) -> Option<CommandWords<'a>>
    ensures { option_map shown_command result ≡ option_map asked.Debug (meaning.debugging_given (option_copied rom.entry) (option_copied script.entry)) }
{
    match (rom, script) {
        (Some(rom), Some(script)) if are_names(&[Some(rom), Some(script)]) => {
            Some(CommandWords::Debug(DebugWords { rom, script }))
        }
        _ => None,
    }
}

ghost use Rattle.std.specs.Prelude.{◌≡◌, ◌∷◌, [], Some, true};
ghost use Rattle.std.specs.Option.{option_copied, option_map};
ghost use Rattle.clap.specs.Matches.{found_of};
ghost use Rattle.clap.specs.Walk.{rows_of};
ghost use Rattle.md_args.specs.Parse.{found_by};
ghost use Rattle.md_args.specs.Shown.{shown_command};
ghost use Rattle.md_args.specs.Commands as meaning;
ghost use Rattle.md_args.specs.Words as asked;

use crate::asm_words::AsmWords;
use crate::command_words::CommandWords;
use crate::names::are_names;
use crate::reading::value;
use clap::ArgMatches;

/// The assembly that the matches have.
pub(crate) fn asm_chosen<'a>(matches: &ArgMatches<'a>) -> Option<CommandWords<'a>>
    ensures { option_map shown_command result ≡ option_map asked.Assemble (meaning.assembling_by (found_by (rows_of (found_of matches.now)))) }
{
    asm_given(
        value(matches, "source"),
        value(matches, "output"),
        value(matches, "list"),
    )
}

/// Whether three names can be names of files, and no two are the same.
fn have_names(source: &str, output: &str, list: Option<&str>) -> bool
    ensures names { result ≡ meaning.are_names (Some source.now ∷ Some output.now ∷ option_copied list.entry ∷ []) }
    ensures apart { result ≡ true → meaning.differ (Some output.now) (option_copied list.entry) ≡ true }
{
    are_names(&[Some(source), Some(output), list])
}

/// The assembly of these names, if those that it needs are there and all can be names of different files.
fn asm_given<'a>(
    source: Option<&'a str>,
    output: Option<&'a str>,
    list: Option<&'a str>,
) -> Option<CommandWords<'a>>
    ensures { option_map shown_command result ≡ option_map asked.Assemble (meaning.assembling_given (option_copied source.entry) (option_copied output.entry) (option_copied list.entry)) }
{
    match (source, output) {
        (Some(source), Some(output)) => {
            if have_names(source, output, list) {
                Some(CommandWords::Assemble(AsmWords {
                    source,
                    output,
                    list,
                }))
            } else {
                None
            }
        }
        _ => None,
    }
}

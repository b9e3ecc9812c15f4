ghost use Rattle.std.specs.Prelude.{◌≡◌};
ghost use Rattle.std.specs.Option.{option_copied, option_map};
ghost use Rattle.clap.specs.Matches.{found_of};
ghost use Rattle.clap.specs.Walk.{rows_of};
ghost use Rattle.md_args.specs.Parse.{found_by};
ghost use Rattle.md_args.specs.Shown.{shown_command};
ghost use Rattle.md_args.specs.Commands as meaning;
ghost use Rattle.md_args.specs.Words as asked;

use crate::command_words::CommandWords;
use crate::convert_words::{ConvertWords, Product};
use crate::names::are_names;
use crate::reading::value;
use clap::ArgMatches;

/// The conversion that the matches have.
pub(crate) fn conversion_chosen<'a>(
    product: Product,
    matches: &ArgMatches<'a>,
) -> Option<CommandWords<'a>>
    ensures { option_map shown_command result ≡ option_map asked.Convert (meaning.conversion_by product (found_by (rows_of (found_of matches.now)))) }
{
    conversion_given(
        product,
        value(matches, "input"),
        value(matches, "output"),
        value(matches, "pal").is_some(),
    )
}

/// The conversion of these names, if both are there and can be names of two files.
fn conversion_given<'a>(
    product: Product,
    input: Option<&'a str>,
    output: Option<&'a str>,
    pal: bool,
) -> Option<CommandWords<'a>>
    ensures { option_map shown_command result ≡ option_map asked.Convert (meaning.conversion_given product (option_copied input.entry) (option_copied output.entry) pal) }
{
    match (input, output) {
        (Some(input), Some(output)) if are_names(&[Some(input), Some(output)]) => {
            Some(CommandWords::Convert(ConvertWords {
                product,
                input,
                output,
                pal,
            }))
        }
        _ => None,
    }
}

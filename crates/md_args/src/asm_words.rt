ghost use Rattle.std.specs.Prelude.{◌≡◌, Some, true};
ghost use Rattle.std.specs.Option.{option_copied};
ghost use Rattle.md_args.specs.Commands.{differ};

/// What the words of an assembly ask for.
#[derive(Clone, Copy)]
pub struct AsmWords<'a> {
    /// The name of the source.
    pub source: &'a str,
    /// The name of the image's file, another one.
    pub output: &'a str,
    /// The name of the list's file, a third one, if it is asked for.
    pub list: Option<&'a str>,
    ghost output_and_list_differ: { differ (Some output.now) (option_copied list) ≡ true },
}

//! Laws of the definitions that the contracts cite, each on a call that does nothing else.
ghost use Rattle.std.specs.Prelude.{◌≡◌, ◌++◌, List, IsPermutation, IsSome, codes, false, map, option_map, true};
ghost use Rattle.std.specs.List.{list_any};
ghost use Rattle.clap.specs.Walk.{Text};
ghost use Rattle.md_args.specs.Given.{has_name, is_marked};
ghost use Rattle.md_args.specs.Spelled.{AreWritten, Written, all_words, apart, argument_of, joined, words_of};
ghost use Rattle.md_args.specs.Commands.{but_workers, run_of, run_flags, run_of_arguments, run_options, workers_of};

/// What is read of the arguments of a run that are written as words is these arguments.
pub fn written_arguments_are_read()
    ensures { (written : List Written) → AreWritten run_options run_flags written
        → run_of (all_words written) ≡ run_of_arguments (map argument_of written) }
{}

/// The order of a run's arguments does not matter, nor how each is written.
pub fn order_is_free()
    ensures { (first second : List Written) → AreWritten run_options run_flags first → AreWritten run_options run_flags second
        → IsPermutation (map argument_of first) (map argument_of second)
        → run_of (all_words first) ≡ run_of (all_words second) }
{}

/// An option and its value in two words are the same as in one, wherever they stand.
pub fn two_words_are_one()
    ensures { (before after : List Text) (name value : Text) → list_any (has_name name) run_options ≡ true → is_marked value ≡ false
        → run_of (before ++ (words_of (apart name value) ++ after)) ≡ run_of (before ++ (words_of (joined name value) ++ after)) }
{}

/// Another number of workers changes nothing else of a run.
pub fn workers_change_nothing_else()
    ensures { (before after : List Text) (count other : Text) → IsSome (workers_of (Some count)) → IsSome (workers_of (Some other))
        → option_map but_workers (run_of (before ++ (words_of (joined (codes "workers") count) ++ after)))
        ≡ option_map but_workers (run_of (before ++ (words_of (joined (codes "workers") other) ++ after))) }
{}

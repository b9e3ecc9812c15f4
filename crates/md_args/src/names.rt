ghost use Rattle.std.specs.Prelude.{◌≡◌, map, true};
ghost use Rattle.std.specs.List.{list_all};
ghost use Rattle.std.specs.Option.{option_copied};
ghost use Rattle.md_args.specs.Shown.{shown_values};
ghost use Rattle.md_args.specs.Commands as meaning;

use crate::run_values::RunValues;

/// Whether what is given for names of files can be names, and no two are the same.
pub(crate) fn have_names(values: &RunValues<'_>) -> bool
    ensures names { result ≡ meaning.are_names (meaning.names_of (shown_values values.now)) }
    ensures save_and_frames { result ≡ true → meaning.differ (option_copied values.now.save) (option_copied values.now.frames) ≡ true }
    ensures save_and_sound { result ≡ true → meaning.differ (option_copied values.now.save) (option_copied values.now.sound) ≡ true }
    ensures save_and_journal { result ≡ true → meaning.differ (option_copied values.now.save) (option_copied values.now.journal) ≡ true }
    ensures frames_and_sound { result ≡ true → meaning.differ (option_copied values.now.frames) (option_copied values.now.sound) ≡ true }
    ensures frames_and_journal { result ≡ true → meaning.differ (option_copied values.now.frames) (option_copied values.now.journal) ≡ true }
    ensures sound_and_journal { result ≡ true → meaning.differ (option_copied values.now.sound) (option_copied values.now.journal) ≡ true }
{
    are_names(&[
        values.rom,
        values.recording,
        values.load,
        values.save,
        values.frames,
        values.sound,
        values.journal,
    ])
}

/// Whether what is given can be names of files, and no two are the same.
pub(crate) fn are_names(names: &[Option<&str>]) -> bool
    ensures { result ≡ meaning.are_names (map option_copied names.now) }
{
    match names {
        [] => true,
        [name, rest @ ..] => {
            is_optional_name(*name) && differs_from_all(*name, rest) && are_names(rest)
        }
    }
}

fn differs_from_all(name: Option<&str>, others: &[Option<&str>]) -> bool
    ensures { result ≡ list_all (meaning.differ (option_copied name.entry)) (map option_copied others.now) }
{
    match others {
        [] => true,
        [other, rest @ ..] => differ(name, *other) && differs_from_all(name, rest),
    }
}

/// Whether the value of an option can be a name.
fn is_optional_name(name: Option<&str>) -> bool
    ensures { result ≡ meaning.is_optional_name (option_copied name.entry) }
{
    match name {
        Some(name) => is_name(name),
        None => true,
    }
}

/// Whether two names are not the same.
fn differ(first: Option<&str>, second: Option<&str>) -> bool
    ensures { result ≡ meaning.differ (option_copied first.entry) (option_copied second.entry) }
{
    match (first, second) {
        (Some(first), Some(second)) => first != second,
        _ => true,
    }
}

/// Whether a word can be a name: it is not empty and does not begin with a hyphen.
pub(crate) fn is_name(word: &str) -> bool
    ensures { result ≡ meaning.is_name word.now }
{
    match word.as_bytes() {
        [] => false,
        [first, ..] => *first != b'-',
    }
}

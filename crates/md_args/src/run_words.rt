ghost use Rattle.std.specs.Prelude.{◌≡◌, ◌≤◌, true};
ghost use Rattle.std.specs.Option.{option_copied};
ghost use Rattle.md_args.specs.Commands.{differ};

/// What the words of a run ask for.
#[derive(Clone, Copy)]
pub struct RunWords<'a> {
    /// The cartridge's name.
    pub rom: &'a str,
    /// The master cycle of the run's end, any number below 2^64.
    pub cycles: u64,
    /// The recording's name, if one is given.
    pub recording: Option<&'a str>,
    /// The name of the saved state to go on from, if one is given.
    pub load: Option<&'a str>,
    /// The name of the state to save, if it is asked for.
    pub save: Option<&'a str>,
    /// The frames file's name, if one is asked for.
    pub frames: Option<&'a str>,
    /// The sound file's name, if one is asked for.
    pub sound: Option<&'a str>,
    /// The journal's name, if one is asked for.
    pub journal: Option<&'a str>,
    /// How many workers make the run, 1 to 5.
    pub workers: u32,
    /// Whether the machine is one for PAL, where it is not that of a saved state.
    pub pal: bool,
    ghost save_and_frames_differ: { differ (option_copied save) (option_copied frames) ≡ true },
    ghost save_and_sound_differ: { differ (option_copied save) (option_copied sound) ≡ true },
    ghost save_and_journal_differ: { differ (option_copied save) (option_copied journal) ≡ true },
    ghost frames_and_sound_differ: { differ (option_copied frames) (option_copied sound) ≡ true },
    ghost frames_and_journal_differ: { differ (option_copied frames) (option_copied journal) ≡ true },
    ghost sound_and_journal_differ: { differ (option_copied sound) (option_copied journal) ≡ true },
    ghost some_workers: { 1 ≤ workers },
    ghost few_workers: { workers ≤ 5 },
}

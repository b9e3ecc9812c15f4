ghost use Rattle.std.specs.Prelude.{◌≡◌};
ghost use Rattle.std.specs.Option.{option_copied};
ghost use Rattle.md_args.specs.Files.{run_input, run_output};
ghost use Rattle.md_args.specs.Shown.{shown_run};

use crate::files::{Input, Output};
use crate::run_words::RunWords;

impl<'a> RunWords<'a> {
    /// The name of an input. It is None where a run has no such input, or its name is not given.
    pub fn input(&self, which: Input) -> Option<&'a str>
        ensures { option_copied result ≡ run_input (shown_run self.now) which }
    {
        match which {
            Input::First => Some(self.rom),
            Input::Recording => self.recording,
            Input::State => self.load,
            Input::Script => None,
        }
    }

    /// The name of an output. It is None where a run has no such output, or it is not asked for.
    pub fn output(&self, which: Output) -> Option<&'a str>
        ensures { option_copied result ≡ run_output (shown_run self.now) which }
    {
        match which {
            Output::Frames => self.frames,
            Output::Sound => self.sound,
            Output::Journal => self.journal,
            Output::Save => self.save,
            Output::Target | Output::Listing => None,
        }
    }
}

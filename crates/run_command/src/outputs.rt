ghost use Rattle.std.specs.Prelude.{◌≡◌};
ghost use Rattle.run_command.specs.Outputs.{number_in};

use md_args::Output;

/// The numbers of the output files that were begun.
#[derive(Clone, Copy)]
pub struct Outputs {
    /// The frames file, if one is asked for.
    pub frames: Option<u32>,
    /// The sound file, if one is asked for.
    pub sound: Option<u32>,
    /// The journal, if one is asked for.
    pub journal: Option<u32>,
    /// The state's file, if one is asked for.
    pub save: Option<u32>,
}

impl Outputs {
    /// The number of an output, if it is begun.
    pub(crate) fn number(&self, which: Output) -> Option<u32>
        ensures { result ≡ number_in self.now which }
    {
        match which {
            Output::Frames => self.frames,
            Output::Sound => self.sound,
            Output::Journal => self.journal,
            Output::Save => self.save,
            Output::Target | Output::Listing => None,
        }
    }
}

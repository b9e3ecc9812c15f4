ghost use Rattle.std.specs.Prelude.{◌≤◌};

/// What the words of the command line ask for: a run of a demonstration cartridge from power-on.
#[derive(Clone, Copy)]
pub struct DemoWords {
    /// The cartridge's number.
    pub number: u64,
    /// The master cycle of the run's end, any number below 2^64.
    pub cycles: u64,
    /// How many workers make it, 1 to 5.
    pub workers: u32,
    /// Whether the machine is one for PAL.
    pub pal: bool,
    ghost some_workers: { 1 ≤ workers },
    ghost few_workers: { workers ≤ 5 },
}

ghost use Rattle.std.specs.Prelude.{◌≡◌, ◌+◌, ◌-◌, ◌^◌, ◌<◌, ◌&&◌, max};

/// What was seen of samples in a row.
#[derive(Clone, Copy)]
pub struct Watched {
    /// How many they were.
    pub samples: u64,
    /// A cycle that none of them but the first is after.
    pub latest: u64,
    /// Nothing was written into work RAM.
    pub quiet: bool,
}

impl Watched {
    /// One more sample, at this cycle.
    pub fn add(&mut self, cycle: u64, quiet: bool)
        requires { self.old.samples < 2 ^ 64 - 1 }
        ensures { self.new ≡ record { samples = self.old.samples + 1; latest = max self.old.latest cycle; quiet = self.old.quiet && quiet } }
    {
        self.samples += 1;
        self.latest = self.latest.max(cycle);
        self.quiet = self.quiet && quiet;
    }
}

ghost use Rattle.std.specs.Prelude.{◌≡◌};
ghost use Rattle.m68k_access.specs.Outcomes.{reported_nothing};

/// The outcome of an instruction, once its accesses are answered.
#[derive(Clone, Copy)]
pub struct Outcome {
    /// A branch was taken, or a condition held.
    pub taken: bool,
    /// The counter of a DBcc expired.
    pub expired: bool,
    /// The number of registers moved, the shift count, or for a multiplication the number of ones
    /// or of unlike neighbours in the source.
    pub count: u8,
    /// The exception that it ends in, by its vector number; 0 for none.
    pub vector: u8,
    /// The processor is stopped.
    pub stopped: bool,
}

impl Outcome {
    /// Nothing but the registers to report.
    pub fn plain() -> Self
        ensures { result ≡ reported_nothing }
    {
        Outcome {
            taken: false,
            expired: false,
            count: 0,
            vector: 0,
            stopped: false,
        }
    }
}

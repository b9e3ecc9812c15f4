ghost use Rattle.std.specs.Prelude.{◌≡◌};
ghost use Rattle.z80_chip.specs.Cases as cases;

/// What the Z80 does at a sample.
#[derive(Clone, Copy)]
pub enum Case {
    /// The bus is requested: it hands over its RAM.
    Yield,
    /// The bus is no longer requested: it takes its RAM back.
    Take,
    /// The bus has its RAM: it does nothing.
    Suspended,
    /// Its reset is held: it does nothing.
    InReset,
    /// The interrupt is taken.
    Interrupt,
    /// It is halted, and does nothing.
    Halted,
    /// The instruction at the program counter.
    Instruction,
}

impl Case {
    /// Whether the Z80 does nothing, and at the samples after it neither while its pins stay.
    pub fn is_rest(self) -> bool
        ensures { result ≡ cases.is_rest self }
    {
        matches!(self, Case::Suspended | Case::InReset)
    }
}

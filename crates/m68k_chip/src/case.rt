ghost use Rattle.std.specs.Prelude.{◌≡◌};
ghost use Rattle.m68k_chip.specs.Cases as cases;

/// What the 68000 does at a sample.
///
/// Source: M68000 User's Manual, section 6; the order is this project's profile.
#[derive(Clone, Copy)]
pub enum Case {
    /// It is halted, and does nothing.
    Halted,
    /// A trace is pending.
    Trace,
    /// An interrupt of this level is taken.
    Interrupt(u8),
    /// It is stopped, and does nothing.
    Stopped,
    /// The instruction at the program counter.
    Instruction,
}

impl Case {
    /// Whether the 68000 does nothing, and at the samples after it neither while its pins stay.
    pub fn is_rest(self) -> bool
        ensures { result ≡ cases.is_rest self }
    {
        matches!(self, Case::Halted | Case::Stopped)
    }

    /// What the sample carries out: 0 the instruction, 1 to 7 an interrupt of that level, 8 a
    /// trace; None where it does nothing.
    pub fn cause(self) -> Option<u8>
        ensures { result ≡ cases.cause_of self }
    {
        match self {
            Case::Halted | Case::Stopped => None,
            Case::Trace => Some(8),
            Case::Interrupt(level) => Some(level),
            Case::Instruction => Some(0),
        }
    }
}

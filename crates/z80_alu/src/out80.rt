ghost use Rattle.std.specs.Prelude.{◌≡◌};
ghost use Rattle.z80_alu.specs.Flags.{reported};

use crate::Flags80;

/// What an operation of 8 bits gives.
#[derive(Clone, Copy)]
pub struct Out80 {
    /// What is written to the target; of an operation that only sets flags, the operand as it was.
    pub value: u8,
    /// The flags after it.
    pub f: u8,
}

/// A value with these flags.
#[inline(always)]
#[tactic(auto, unfolding(crate::specs::Flags::reported))]
pub fn reported(value: u8, flags: Flags80) -> Out80
    ensures { result ≡ reported value flags }
{
    Out80 {
        value,
        f: flags.byte(),
    }
}

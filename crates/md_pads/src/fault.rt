ghost use Rattle.std.specs.Prelude.{◌≡◌};
ghost use Rattle.md_pads.specs.declared.fault.RecFault.TheVariants.{NoMemory as OutOfMemory};

use std::alloc::AllocError;

/// Why bytes were not read as a recording.
#[derive(Clone, Copy, PartialEq, Eq, Debug)]
pub enum RecFault {
    /// They spell no recording.
    Form {
        /// The offset of the first invalid byte, or of the end of bytes that end too early: how many
        /// of the bytes some recording begins with.
        place: u64,
    },
    /// They spell a recording, and memory is out.
    NoMemory,
}

impl From<AllocError> for RecFault {
    ghost from_gives = { λ _ fault. fault ≡ OutOfMemory };

    fn from(_: AllocError) -> RecFault {
        RecFault::NoMemory
    }
}

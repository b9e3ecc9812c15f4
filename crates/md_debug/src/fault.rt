ghost use Rattle.std.specs.Prelude.{◌≡◌};
ghost use Rattle.md_debug.specs.Sessions.{refusal};

use debug_text::Misread;
use md_word::NoMemory;

/// Why a line of a script is refused.
#[derive(Clone, Copy, PartialEq, Eq, Debug)]
pub enum DebugFault {
    /// It begins with no command's word, or it has a byte that is not ASCII.
    UnknownWord,
    /// A number is missing, is one too many, is no number or out of range.
    BadNumber,
    /// Fewer states are kept than it goes back.
    NotKept {
        /// The cycle of the oldest one.
        oldest: u64,
    },
    NoMemory,
}

/// Why a line that asks for nothing is refused.
pub(crate) fn refused(misread: Misread) -> DebugFault
    ensures { result ≡ refusal misread }
{
    match misread {
        Misread::UnknownWord => DebugFault::UnknownWord,
        Misread::BadNumber => DebugFault::BadNumber,
    }
}

impl From<NoMemory> for DebugFault {
    ghost use Rattle.md_debug.specs.declared.fault.DebugFault.TheVariants as faults;

    ghost from_gives = { λ _ fault. fault ≡ faults.NoMemory };

    fn from(_: NoMemory) -> Self {
        DebugFault::NoMemory
    }
}

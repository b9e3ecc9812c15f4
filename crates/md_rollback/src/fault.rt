ghost use Rattle.std.specs.Prelude.{◌≡◌};
ghost use Rattle.md_rollback.specs.declared.fault.AdvanceFault.TheVariants.{NoMemory as OutOfMemory};

use md_word::NoMemory;

/// Why a session does not advance.
#[derive(Clone, Copy, PartialEq, Eq, Debug)]
pub enum AdvanceFault {
    /// It went its window beyond the frames that both players' inputs are known of.
    Waiting { confirmed: u64, frames: u64 },
    /// All its frames were made.
    Ended,
    NoMemory,
}

impl From<NoMemory> for AdvanceFault {
    ghost from_gives = { λ _ fault. fault ≡ OutOfMemory };

    fn from(_: NoMemory) -> AdvanceFault {
        AdvanceFault::NoMemory
    }
}

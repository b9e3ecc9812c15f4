ghost use Rattle.std.specs.Prelude.{◌≡◌};
ghost use Rattle.state_laws.specs.declared.fault.ReplayFault.TheVariants.{NoMemory as OutOfMemory};

use md_word::NoMemory;

/// Why no machine is made of bytes.
#[derive(Clone, Copy, PartialEq, Eq, Debug)]
pub enum ReplayFault {
    /// They are no image.
    Form,
    NoMemory,
}

impl From<NoMemory> for ReplayFault {
    ghost from_gives = { λ _ fault. fault ≡ OutOfMemory };

    fn from(_: NoMemory) -> ReplayFault {
        ReplayFault::NoMemory
    }
}

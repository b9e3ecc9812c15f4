ghost use Rattle.std.specs.Prelude.{ℕ, Bool, IfNone};

/// What holds chips for one thread, at most one of each number.
pub trait Holder: Drop {
    ghost use Rattle.work_sharing.specs.Dues.{AllFree, FreeBut};

    /// Whether no private work is due for the chip of this number, or it is not held.
    ghost is_free: { ℕ → Self → Bool };

    /// All chips of the run are held.
    ghost all_held: { Self → Type 0 };

    /// How many chips the run has, numbered from 0.
    fn count() -> u8;

    /// A holder without chips.
    fn none() -> Self
        ensures { AllFree is_free result };

    /// Whether the chip of this number is held.
    fn has(&self, chip: u8) -> bool;

    /// The first number of a chip that is not held; none where all are.
    fn missing(&self) -> Option<u8>
        ensures { IfNone result (all_held self.now) };

    /// Of how many held chips the next private work is worth offloading, at most five.
    fn worth_offloading(&self) -> u8;

    /// Moves the chip of this number, if it is held, to another holder.
    fn move_free(&mut self, other: &mut Self, chip: u8)
        requires here { AllFree is_free self.old }
        requires there { AllFree is_free other.old }
        ensures left { AllFree is_free self.new }
        ensures moved { AllFree is_free other.new };

    /// The same from a holder in which private work of this chip alone may be due, to any other.
    fn give_due(&mut self, other: &mut Self, chip: u8)
        requires { FreeBut is_free chip self.old }
        ensures { AllFree is_free self.new };

    /// The same from any holder to one in which none is due.
    fn take_due(&mut self, other: &mut Self, chip: u8)
        requires { AllFree is_free other.old }
        ensures { FreeBut is_free chip other.new };

    /// Does the private work that is due for the chip of this number.
    fn settle(&mut self, chip: u8)
        requires { FreeBut is_free chip self.old }
        ensures { AllFree is_free self.new };
}

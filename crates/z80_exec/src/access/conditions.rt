ghost use Rattle.std.specs.Prelude.{◌≡◌};
ghost use Rattle.z80_exec.specs.Access.Conditions as conditions;

use z80_alu::Flags80;
use z80_decode::Condition;

/// Whether a condition of a jump, call or return holds by F.
#[tactic(auto, unfolding(crate::specs::Access::Conditions::holds))]
pub fn holds(condition: Condition, f: u8) -> bool
    ensures { result ≡ conditions.holds condition f }
{
    let flags = Flags80::of(f);
    match condition {
        Condition::NonZero => !flags.z,
        Condition::Zero => flags.z,
        Condition::NonCarry => !flags.c,
        Condition::Carry => flags.c,
        Condition::ParityOdd => !flags.pv,
        Condition::ParityEven => flags.pv,
        Condition::Positive => !flags.s,
        Condition::Negative => flags.s,
    }
}

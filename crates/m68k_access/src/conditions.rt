ghost use Rattle.std.specs.Prelude.{◌≡◌};
ghost use Rattle.m68k_access.specs.Conditions as conditions;

use m68k_decode::Condition;
use md_word::Flags;

/// Whether a condition of Bcc, DBcc or Scc holds.
pub fn holds(condition: Condition, flags: Flags) -> bool
    ensures { result ≡ conditions.holds condition flags }
{
    match condition {
        Condition::True => true,
        Condition::False => false,
        Condition::High => !flags.c && !flags.z,
        Condition::LowOrSame => flags.c || flags.z,
        Condition::CarryClear => !flags.c,
        Condition::CarrySet => flags.c,
        Condition::NotEqual => !flags.z,
        Condition::Equal => flags.z,
        Condition::OverflowClear => !flags.v,
        Condition::OverflowSet => flags.v,
        Condition::Plus => !flags.n,
        Condition::Minus => flags.n,
        Condition::GreaterOrEqual => flags.n == flags.v,
        Condition::LessThan => flags.n != flags.v,
        Condition::GreaterThan => flags.n == flags.v && !flags.z,
        Condition::LessOrEqual => flags.n != flags.v || flags.z,
    }
}

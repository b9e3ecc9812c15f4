//! Machines of which fill, copy and timers were settled at a cycle, as they are in a saved state: laws, as
//! calls that do nothing and stand for what they ensure.

ghost use Rattle.std.specs.Prelude.{◌≡◌, ℕ, ◌^◌, ◌<◌, ◌≤◌, List};
ghost use Rattle.md_word.specs.Clock as clock;
ghost use Rattle.md_word.specs.declared.event.Entry.{Entry};
ghost use Rattle.md_chips.specs.Console.{Console, IsQuiet, IsRunTo, key_in, moved, rendered, reported};
ghost use Rattle.md_chips.specs.Media.{Media};
ghost use Rattle.md_chips.specs.ValidParts.{HasValidParts};
ghost use Rattle.save_state.specs.States.{settled_console};
ghost use Rattle.machine_laws.specs.Settling.{GoesOn};

use md_machine::laws;

/// A move at the cycle or later reports and shows the same, and leaves the same once that is settled.
pub fn moves_see_no_settling()
    ensures moved { (m : Console) (at i : ℕ) → i < 5 → at ≤ (key_in m i).cycle
        → settled_console at (moved (settled_console at m) i) ≡ settled_console at (moved m i) }
    ensures reported { (m : Console) (at i : ℕ) → i < 5 → at ≤ (key_in m i).cycle → reported (settled_console at m) i ≡ reported m i }
    ensures rendered { (m : Console) (at i : ℕ) → i < 5 → at ≤ (key_in m i).cycle → rendered (settled_console at m) i ≡ rendered m i }
{}

/// So from such a machine a run continues as it would have: with the same entries, frames and samples, and to
/// the same machine but for what was settled.
pub fn settled_machines_go_on()
    ensures { (m z : Console) (at end : ℕ) (entries : List Entry) (output : Media) → HasValidParts m → IsQuiet at m → at ≤ end → end ≤ clock.cycle_limit
        → IsRunTo m end z entries output → GoesOn end (settled_console at m) z entries output }
{
    laws::quiet_stays();
}

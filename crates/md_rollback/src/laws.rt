//! A law of sessions, as a call that does nothing and stands for what it ensures.

ghost use Rattle.std.specs.Prelude.{ℕ, List, ◌≤◌};
ghost use Rattle.md_chips.specs.Machines.{MachineValue};
ghost use Rattle.md_rollback.specs.Inputs.{IsConfirmed, IsMore, Words, expected_frames};
ghost use Rattle.md_rollback.specs.Played.{IsMachineOf};

use crate::input_laws;

/// Of confirmed frames the machine is that of all words that are ever given, whatever comes beyond them.
pub fn confirmed_machines_stay()
    ensures { (cart : List ℕ) (local remote more_local more_remote : Words) (confirmed frames : ℕ) (machine : MachineValue) → IsConfirmed local remote confirmed → frames ≤ confirmed
        → IsMore local more_local → IsMore remote more_remote
        → IsMachineOf cart (expected_frames local remote frames) frames machine → IsMachineOf cart (expected_frames more_local more_remote frames) frames machine }
{
    input_laws::confirmed_frames_stay();
}

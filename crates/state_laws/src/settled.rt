//! Machines of which fill, copy and timers were settled at a cycle, as they are in an image: laws, as calls
//! that do nothing and stand for what they ensure.

ghost use Rattle.std.specs.Prelude.{◌≡◌, ℕ, ◌^◌, ◌≤◌, All, List};
ghost use Rattle.md_word.specs.Clock as clock;
ghost use Rattle.md_word.specs.declared.event.Entry.{Entry};
ghost use Rattle.md_pads.specs.Recording.{IsFrame, Recorded};
ghost use Rattle.md_chips.specs.Console.{Console, IsQuiet, IsRunTo};
ghost use Rattle.md_chips.specs.Media.{Media};
ghost use Rattle.md_chips.specs.ValidParts.{HasValidParts};
ghost use Rattle.save_state.specs.States.{settled_console};
ghost use Rattle.machine_laws.specs.Processors.{IsValid};
ghost use Rattle.machine_laws.specs.Reached.{IsReached};
ghost use Rattle.machine_laws.specs.Settling.{GoesOn};
ghost use Rattle.machine_laws.specs.Recorded.{with_recording};

use md_machine::laws;

/// From two machines that differ only in what was settled below a cycle runs continue alike: with the same
/// entries, frames and samples, and to machines that differ in that alone.
pub fn alike_machines_go_on()
    ensures { (m w z : Console) (at end : ℕ) (entries : List Entry) (output : Media) → HasValidParts m → IsQuiet at m → at ≤ end → end ≤ clock.cycle_limit
        → settled_console at m ≡ settled_console at w → IsRunTo m end z entries output → GoesOn end w z entries output }
{
    laws::quiet_stays();
}

/// What holds of each machine that a run reaches holds of it too once it is settled, with any recording of
/// buttons.
pub fn settled_machines_are_reached()
    ensures { (at : ℕ) (m : Console) (recording : Recorded) → let w = with_recording recording (settled_console at m) in
        IsReached at m → All IsFrame recording.frames → HasValidParts w → IsValid w → IsReached at w }
{}

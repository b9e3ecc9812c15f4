//! The board's lines and pads in the machines that a run reaches: laws, as calls that do nothing and stand
//! for what they ensure.

ghost use Rattle.std.specs.Prelude.{ℕ, Bool, ◌^◌, ◌≤◌, All, List};
ghost use Rattle.md_word.specs.Clock as clock;
ghost use Rattle.md_pads.specs.Recording.{IsFrame, Recorded};
ghost use Rattle.md_word.specs.declared.event.Entry.{Entry};
ghost use Rattle.bus_shared.specs.Spelling as boards;
ghost use Rattle.md_chips.specs.Console.{Console, IsQuiet, IsRunTo, power_on};
ghost use Rattle.md_chips.specs.Media.{Media};
ghost use Rattle.md_chips.specs.ValidParts.{HasValidParts};
ghost use Rattle.machine_laws.specs.BoardLines.{HasLines};
ghost use Rattle.machine_laws.specs.Timers.{HasTimers};
ghost use Rattle.machine_laws.specs.Video.{HasVideo};
ghost use Rattle.machine_laws.specs.Writes.{HasWrites};

use chip_core::laws;
use md_machine::MdChips;

/// At power-on the rules of the lines and the pads hold, at each cycle, with a recording of buttons.
pub fn lines_at_power_on()
    ensures { (cart : List ℕ) (recording : Recorded) (pal : Bool) (at : ℕ) → All IsFrame recording.frames → HasLines at (power_on cart recording pal) }
{}

/// A run to a cycle of at most 2^50 keeps them, from any machine of valid parts of which they hold at a cycle
/// that is no later, and no event of which is below that.
pub fn lines_of_runs()
    ensures { (m z : Console) (at end : ℕ) (entries : List Entry) (output : Media) → HasValidParts m → HasLines at m
        → IsQuiet at m → at ≤ end → end ≤ clock.cycle_limit → IsRunTo m end z entries output → HasLines end z }
{
    laws::stages::<MdChips>();
}

/// Where they hold at a cycle with the rules of the VDP, of the timers and of the writes that the sound chips'
/// ports hold, the board may be kept in a state at it.
pub fn board_may_be_kept()
    ensures { (at : ℕ) (m : Console) → HasVideo at m → HasLines at m → HasTimers at m → HasWrites at m → boards.IsReady at m.shared }
{}

/// They hold of each machine whose board the bytes of a state at the cycle keep, with a recording of buttons.
pub fn lines_of_states()
    ensures { (at : ℕ) (pal : Bool) (bytes : List ℕ) (m : Console) → boards.Spells at pal bytes m.shared
        → All IsFrame m.shared.recording.frames → HasLines at m }
{}

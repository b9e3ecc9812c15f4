//! The timers of the FM chip in the machines that a run reaches: laws, as calls that do nothing and stand for
//! what they ensure.

ghost use Rattle.std.specs.Prelude.{ℕ, Bool, ◌≤◌, List};
ghost use Rattle.md_word.specs.declared.event.Entry.{Entry};
ghost use Rattle.fm_port.specs.PortSpelling as fm_port;
ghost use Rattle.md_pads.specs.Recording.{Recorded};
ghost use Rattle.md_chips.specs.Console.{Console, IsRunTo, power_on};
ghost use Rattle.md_chips.specs.Media.{Media};
ghost use Rattle.md_chips.specs.Starts.{Start};
ghost use Rattle.machine_laws.specs.Timers.{HasTimers};

/// At power-on both timers are stopped.
pub fn power_on_has_timers()
    ensures { (cart : List ℕ) (recording : Recorded) (pal : Bool) (at : ℕ) → HasTimers at (power_on cart recording pal) }
{}

/// A run from a start whose timers are as in a saved state reaches a machine of which that holds too.
pub fn timers_are_kept()
    ensures { (start : Start) (z : Console) (end : ℕ) (entries : List Entry) (output : Media) → HasTimers start.at start.console → start.at ≤ end
        → IsRunTo start.console end z entries output → HasTimers end z }
{}

/// They hold of each machine whose FM chip's port the bytes of a state at the cycle keep.
pub fn timers_of_states()
    ensures { (at : ℕ) (bytes : List ℕ) (m : Console) → fm_port.SpellsPort at bytes m.shared.fm → HasTimers at m }
{}

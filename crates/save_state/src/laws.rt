//! Laws of saved states, as calls that do nothing and stand for what they ensure.
ghost use Rattle.std.specs.Prelude.{◌≡◌, ℕ, ◌≤◌, Bool, List};
ghost use Rattle.md_word.specs.Clock.{last_cycle};
ghost use Rattle.md_pads.specs.Recording.{Recorded};
ghost use Rattle.md_chips.specs.Console.{power_on};
ghost use Rattle.md_chips.specs.Starts.{Start};
ghost use Rattle.save_state.specs.Ready.{IsReady};
ghost use Rattle.save_state.specs.States.{settled_console, state_bytes};
ghost use Rattle.save_state.specs.Versions.{IsState};

use md_machine::Machine;

/// Whether it is written or not: the bytes of a machine whose parts may be kept are a saved state of its
/// cartridge, which keeps it settled.
pub fn kept(machine: &Machine)
    requires { machine.now.at ≤ last_cycle }
    ensures { IsReady machine.now.at machine.now.console
        → IsState machine.now.console.cart (state_bytes machine.now.at machine.now.console) (record { at = machine.now.at; console = settled_console machine.now.at machine.now.console }) }
{
    machine.pal();
    machine.main_chip().is_read_again();
    machine.sub_chip().is_read_again();
    machine.shared().is_read_again(machine.at());
    machine.draw_chip().is_read_again();
    machine.fm().is_read_again();
    machine.psg().is_read_again();
}

/// The machine of power-on is at cycle 0, where nothing of it is to be settled, and its bytes are no saved
/// state of its cartridge.
pub fn power_on_is_no_state()
    ensures settled { (cart : List ℕ) (recording : Recorded) (pal : Bool) → settled_console 0 (power_on cart recording pal) ≡ power_on cart recording pal }
    ensures none { (cart : List ℕ) (recording : Recorded) (pal : Bool) (start : Start) → ¬ IsState cart (state_bytes 0 (power_on cart recording pal)) start }
{}

//! What is heard of a run from power-on: laws, as calls that do nothing and stand for what they ensure.

ghost use Rattle.std.specs.Prelude.{ℕ, Bool, ◌^◌, ◌≤◌, List};
ghost use Rattle.md_word.specs.Clock as clock;
ghost use Rattle.md_word.specs.declared.event.Entry.{Entry};
ghost use Rattle.md_pads.specs.Recording.{Recorded};
ghost use Rattle.md_chips.specs.Console.{Console, IsRunTo, power_on};
ghost use Rattle.md_chips.specs.Media.{Media};
ghost use Rattle.machine_laws.specs.Heard.{HearsLevels, HearsSides};

use crate::writes::events_are_paced;
use md_machine::laws;
use rom_header::Cart;

/// The levels of a run from power-on to a cycle are those of the sound generator over the writes that are in
/// its journal, as many as there are samples below the cycle.
pub fn levels_are_heard(cart: &Cart)
    ensures { (recording : Recorded) (pal : Bool) (z : Console) (end : ℕ) (entries : List Entry) (output : Media) → end ≤ clock.cycle_limit
        → IsRunTo (power_on cart.now recording pal) end z entries output → HearsLevels end entries output.levels }
{
    laws::parts_start_valid(cart);
    events_are_paced();
    laws::one_owner(cart);
    laws::power_on_is_start();
}

/// The samples of both sides of a run from power-on to a cycle are those of the FM chip over the writes and
/// resets that are in its journal, as many as there are samples below the cycle: a byte for a data address
/// goes to the register that was latched last.
pub fn sides_are_heard(cart: &Cart)
    ensures { (recording : Recorded) (pal : Bool) (z : Console) (end : ℕ) (entries : List Entry) (output : Media) → end ≤ clock.cycle_limit
        → IsRunTo (power_on cart.now recording pal) end z entries output → HearsSides end entries output.sides }
{
    laws::parts_start_valid(cart);
    events_are_paced();
    laws::one_owner(cart);
    laws::power_on_is_start();
}

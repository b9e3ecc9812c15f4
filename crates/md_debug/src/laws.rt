//! Laws on how the machine continues, as calls that do nothing and stand for what they ensure.

ghost use Rattle.std.specs.Prelude.{◌≡◌, ℕ, ◌+◌, ◌<◌, ◌≤◌, option_to_list};
ghost use Rattle.md_word.specs.Clock.{last_cycle, line};
ghost use Rattle.md_chips.specs.Console.{AllBelow, Console, begins_in};
ghost use Rattle.md_chips.specs.Starts.{IsStart, Start};
ghost use Rattle.md_chips.specs.ValidParts.{HasValidParts};
ghost use Rattle.md_debug.specs.Going.{begun_by, least_of};

use chip_core::laws;
use machine_laws::writes::events_are_paced;
use md_machine::{MdChips, laws as console_laws};

/// The next event of a machine that is where a run may begin comes at its cycle or later, and no more than a
/// line later.
pub(crate) fn least_is_near()
    ensures late { (start : Start) → IsStart start → start.at ≤ least_of start.console }
    ensures near { (start : Start) → IsStart start → least_of start.console ≤ start.at + line }
{
    console_laws::mover_is_first();
}

/// Of all events of the least cycle at most the first begins an instruction of the 68000.
pub(crate) fn one_begins()
    ensures { (m : Console) (moves : ℕ) → HasValidParts m → least_of m < last_cycle → AllBelow m (least_of m + 1) moves
        → 1 ≤ moves → begun_by m moves ≡ option_to_list (begins_in m) }
{
    laws::stages::<MdChips>();
    laws::limits::<MdChips>();
    console_laws::parts_stay_valid();
    events_are_paced();
}

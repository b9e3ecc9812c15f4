//! Laws of the machine, as calls that do nothing and stand for what they ensure.

ghost use Rattle.std.specs.Prelude.{ℕ, ◌+◌, ◌-◌, ◌≤◌};
ghost use Rattle.md_word.specs.Clock as clock;
ghost use Rattle.md_chips.specs.Console.{AllBelow};
ghost use Rattle.md_chips.specs.Lists.{ListsEndAsRun};
ghost use Rattle.md_chips.specs.ValidParts.{HasValidParts};

use crate::machine::Machine;
pub use md_chips::laws::{
    few_entries, few_in_list, frames_counted, halves_are_moves, joined, mover_is_first,
    moves_added, one_owner, one_run, pads_are_recorded, parts_start_valid, parts_stay_valid,
    power_on_is_start, quiet_stays, region_stays, run_ends_at_start, samples_counted,
};

/// From a machine on there are never more events below a cycle than cycles up to it, and chips.
pub fn few_events(machine: &Machine)
    ensures { (end n : ℕ) → end ≤ clock.cycle_limit → AllBelow machine.now.console end n → n ≤ end - machine.now.at + 5 }
{
    machine.few_events();
}

/// Wherever enabled events of the core lead that a machine's chips make, with their keys as bounds and an
/// empty journal: a list of them below any cycle up to the last has an end, and none gets stuck. Each list that
/// leaves no event below the cycle leads to the machine of the run, with its journal. In segments of a frame's
/// cycles at most, each from the core that the one before left and that was drained, the frames and samples
/// too are those of the run.
pub fn lists_end_as_run(machine: &Machine)
    ensures { ListsEndAsRun machine.now.at machine.now.console }
{
    machine.lists_end_as_run();
}

/// The parts of a machine are valid.
pub fn parts_are_valid(machine: &Machine)
    ensures { HasValidParts machine.now.console }
{
    machine.valid_parts();
}

//! Laws of the runs of a machine, each on a call that does nothing else.
ghost use Rattle.std.specs.Prelude.{◌≡◌, ◌<◌, ◌^◌, true, length};
ghost use Rattle.md_chips.specs.Starts.{IsStart};
ghost use Rattle.run_command.specs.Courses.{start_at};
ghost use Rattle.run_command.specs.Counts.{frames_between, pairs_between};
ghost use Rattle.run_command.specs.Resuming.{StateLaws};
ghost use Rattle.run_command.specs.Runs.{RunLaws, is_quiet, media_from, run_from};

use machine_laws::{saved, settling};
use md_machine::{Machine, laws};

/// What the laws of the machine say of the runs from where a machine is.
pub(crate) fn runs_keep_laws(machine: &Machine)
    ensures { RunLaws (start_at machine.now) }
{
    laws::few_events(machine);
    laws::mover_is_first();
    laws::few_entries();
    laws::moves_added();
    laws::joined();
    laws::samples_counted();
    laws::frames_counted();
}

/// What the laws on saved states say.
pub(crate) fn states_keep_laws()
    ensures { StateLaws }
{
    saved::runs_reach();
    saved::reached_may_be_kept();
    settling::settled_machines_go_on();
    laws::one_run();
}

/// A machine after a run from where it is to the cycle `end` has no event left below it.
pub fn run_is_complete(machine: &Machine, end: u64)
    requires { end < 2 ^ 40 }
    ensures { is_quiet end (run_from (start_at machine.now) end) ≡ true }
{
    runs_keep_laws(machine);
}

/// A run from where a machine is to the cycle `end` has 16 pairs for each multiple of 16,128 cycles
/// between the two and below the end, from the first on.
pub fn pairs_are_counted(machine: &Machine, end: u64)
    requires start { IsStart (start_at machine.now) }
    requires near { end < 2 ^ 40 }
    ensures { length (media_from (start_at machine.now) end).levels ≡ pairs_between machine.now.at end }
{
    runs_keep_laws(machine);
}

/// A run from where a machine is to the cycle `end` has a frame for each start of a line 224 between
/// the two and below the end.
pub fn frames_are_counted(machine: &Machine, end: u64)
    requires start { IsStart (start_at machine.now) }
    requires near { end < 2 ^ 40 }
    ensures { length (media_from (start_at machine.now) end).frames ≡ frames_between machine.now.console.pal machine.now.at end }
{
    runs_keep_laws(machine);
}

ghost use Rattle.std.specs.Prelude.{◌≡◌, ◌≤◌, ◌+◌, [], length};
ghost use Rattle.md_word.specs.Clock.{last_cycle};
ghost use Rattle.md_word.specs.Region.{frame_cycles};
ghost use Rattle.chip_core.specs.Cores.{IsCore, machine_of};
ghost use Rattle.chip_core.specs.Machines as machines;
ghost use Rattle.md_chips.specs.Console.{IsRunTo};
ghost use Rattle.md_chips.specs.Machines.{kept_in};
ghost use Rattle.bus_shared.specs.Board.{IsBoard};
ghost use Rattle.md_chips.specs.Refinement.{console_of};
ghost use Rattle.md_chips.specs.Regions.{Stays, most_entries, most_pairs};
ghost use Rattle.md_chips.specs.Rules.{IsChip, five};
ghost use Rattle.md_chips.specs.Media.{no_media};

use crate::laws::know_segments;
use crate::set::MdChips;
use chip_core::{Core, laws};

/// Runs all events below a cycle, at most those of a segment, and waits for nobody.
pub fn run_alone(core: Core<MdChips>, from: u64, to: u64) -> Core<MdChips>
    requires core { IsCore five IsChip IsBoard core }
    requires quiet { machines.IsQuiet five (machine_of five core) from }
    requires near { to ≤ from + frame_cycles (console_of (machine_of five core)).pal }
    requires far { to ≤ last_cycle }
    requires room { most_entries (console_of (machine_of five core)).pal ≤ core.room }
    requires entries { core.journal ≡ [] }
    requires media { kept_in (machine_of five core) ≡ no_media }
    ensures core { IsCore five IsChip IsBoard result }
    ensures room { result.room ≡ core.room }
    ensures run { IsRunTo (console_of (machine_of five core)) to (console_of (machine_of five result))
        result.journal (kept_in (machine_of five result)) }
    ensures quiet { machines.IsQuiet five (machine_of five result) to }
    ensures region { Stays (console_of (machine_of five core)) (console_of (machine_of five result)) }
    ensures entries { length result.journal ≤ most_entries (console_of (machine_of five core)).pal }
    ensures samples { length (kept_in (machine_of five result)).levels ≤ most_pairs (console_of (machine_of five core)).pal }
{
    know_segments();
    let mut core = core;
    laws::room(&core, to);
    laws::run_least(&mut core, to);
    core
}

ghost use Rattle.std.specs.Prelude.{◌≡◌, ◌<◌, ◌↔◌, IsTrue, false};
ghost use Rattle.md_word.specs.Clock.{cycle_limit};
ghost use Rattle.md_word.specs.Keys.{key_lt};
ghost use Rattle.chip_core.specs.Chips.{ArePins, RunsTo, SamplesBelow};

use crate::ChipSet;
use md_word::Key;

/// Whether a chip's next event is a sample before a key.
fn samples_below<C: ChipSet>(chip: &C::Chip, until: &Key) -> bool
    ensures value { IsTrue result ↔ SamplesBelow C.rules until.now chip.now }
    ensures ok { C.chip_ok chip.now }
{
    let next = C::next(chip);
    next.sample && next.key.is_below(until)
}

/// The sample that is due, and all samples of the same pins before a key after it, as long as no access
/// comes; answers how many that were.
pub fn run<C: ChipSet>(chip: &mut C::Chip, pins: &C::Pins, until: &Key) -> u64
    requires sample { SamplesBelow C.rules until.now chip.old }
    requires pins { ArePins C.rules C.shared_ok pins.now (C.rules.next chip.old).key.chip }
    requires number { (C.rules.next chip.old).key.chip < C.rules.count }
    requires time { key_lt (record { cycle = cycle_limit; chip = 0 }) until.now ≡ false }
    ensures { RunsTo C.rules result until.now pins.now chip.old chip.new }
{
    let _first = C::next(chip);
    let mut samples = C::sample_ahead(chip, pins, until);
    while samples_below::<C>(chip, until) {
        samples += C::sample_ahead(chip, pins, until);
    }
    samples
}

ghost use Rattle.std.specs.Prelude.{◌≡◌, length};
ghost use Rattle.chip_core.specs.Cores as cores;
ghost use Rattle.chip_core.specs.Machines.{least_below};
ghost use Rattle.md_chips.specs.Rules.{five};

use crate::chips::Chip;
use crate::set::MdChips;
use chip_core::ChipSet;
use md_word::Key;

/// The least key of the five chips.
pub fn least_key(chips: &[Chip]) -> Key
    requires { length chips.now ≡ 5 }
    ensures { result ≡ cores.key_in five chips.now (least_below (cores.key_in five chips.now) 5) }
{
    let mut least = MdChips::next(&chips[0]).key;
    'chips: for i in 1..5 {
        let key = MdChips::next(&chips[i]).key;
        if key.is_below(&least) {
            least = key;
        }
    }
    least
}

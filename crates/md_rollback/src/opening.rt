ghost use Rattle.std.specs.Prelude.{◌≡◌, ◌≤◌, false, [], IfOk};
ghost use Rattle.std.specs.Arc.{arc_value};
ghost use Rattle.md_pads.specs.Recording.{no_frames};
ghost use Rattle.md_chips.specs.Console.{power_on};
ghost use Rattle.md_chips.specs.Media.{no_media};
ghost use Rattle.md_rollback.specs.Inputs.{no_words};

use crate::Session;
use crate::outcome_laws::states_may_be_kept;
use md_machine::Machine;
use md_pads::Recording;
use md_word::NoMemory;
use rom_header::Cart;
use state_laws::{StateReplays, same_cart};
use std::alloc::Global;
use std::sync::Arc;

/// The session of a cartridge at power-on of NTSC, which goes a window of 1 to 16 frames beyond those that are
/// confirmed. It fails only when memory runs out.
pub fn session(
    alloc: Global,
    cart: Arc<Cart>,
    window: u32,
) -> Result<Session<StateReplays>, NoMemory>
    requires some { 1 ≤ window }
    requires most { window ≤ 16 }
    ensures { IfOk result (λ session. session ≡ record {
      window = window;
      local = no_words;
      remote = no_words;
      confirmed = 0;
      frames = 0;
      machine = record { at = 0; console = power_on (arc_value cart) no_frames false; entries = []; media = no_media };
    }) }
{
    states_may_be_kept();
    let recording = Arc::new(alloc, Recording::empty(alloc))?;
    let again = same_cart(&cart)?;
    let machine = Machine::power_on(alloc, again, recording, false)?;
    Session::make(alloc, machine, StateReplays::make(cart), window)
}

ghost use Rattle.std.specs.Prelude.{◌≡◌, All, IfOk};
ghost use Rattle.std.specs.Arc.{arc_value};
ghost use Rattle.md_pads.specs.Recording.{IsFrame};
ghost use Rattle.run_command.specs.Courses.{IsFresh, start_at};
ghost use Rattle.run_command.specs.Runs.{powered_on};

use crate::inputs::Inputs;
use machine_laws::saved;
use md_machine::{Machine, laws};
use md_pads::Recording;
use md_word::NoMemory;
use rom_header::Cart;
use std::alloc::Global;
use std::sync::Arc;

/// The machine of these inputs at power-on. The only error is out of memory.
pub fn power_on(alloc: Global, inputs: Inputs) -> Result<Machine, NoMemory>
    requires { All IsFrame inputs.recording.frames }
    ensures start { IfOk result (λ machine. start_at machine ≡ powered_on inputs) }
    ensures fresh { IfOk result IsFresh }
{
    laws::power_on_is_start();
    saved::power_on_is_reached(&inputs.cart);
    let pal = inputs.pal;
    let (cart, recording) = shared(alloc, inputs)?;
    Machine::power_on(alloc, cart, recording, pal)
}

/// The inputs, each to be held by several owners. The only error is out of memory.
pub fn shared(alloc: Global, inputs: Inputs) -> Result<(Arc<Cart>, Arc<Recording>), NoMemory>
    ensures { IfOk result (λ both. record { cart = arc_value both.0; recording = arc_value both.1; pal = inputs.pal } ≡ inputs) }
{
    let cart = Arc::new(alloc, inputs.cart)?;
    let recording = Arc::new(alloc, inputs.recording)?;
    Ok((cart, recording))
}

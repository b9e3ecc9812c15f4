ghost use Rattle.std.specs.Prelude.{◌≡◌, All, IfOk};
ghost use Rattle.std.specs.Arc.{arc_value};
ghost use Rattle.md_pads.specs.Recording.{IsFrame};
ghost use Rattle.state_laws.specs.Images.{HasImage, ImagesValue, first_of};

use crate::StateReplays;
use crate::owners::is_same;
use machine_laws::saved;
use md_machine::Machine;
use md_pads::Recording;
use md_word::NoMemory;
use page_ring::{ImageFault, Images};
use rom_header::Cart;
use save_state::LENGTH;
use std::alloc::Global;
use std::marker::Model;
use std::sync::Arc;

/// The images of the machines of a cartridge and a recording of the pads: their saved states, and that of
/// power-on, which is none. The digest of the cartridge and the image of power-on are computed once.
#[derive(Drop)]
pub struct StateImages {
    replays: StateReplays,
    recording: Arc<Recording>,
    /// The region of the machine at power-on.
    pal: bool,
    /// The image of the machine at power-on.
    first: Vec<u8>,
}

impl Model for StateImages {
    ghost use Rattle.std.specs.Arc.{arc_value};
    ghost use Rattle.state_laws.specs.Images.{AreReady, ImagesValue};

    ghost Value = { ImagesValue };

    ghost view = { λ s. record { cart = s.replays; recording = arc_value s.recording; pal = s.pal } };

    ghost invariant = { λ s. AreReady (record { cart = s.replays; recording = arc_value s.recording; pal = s.pal }) s.first.items };
}

impl StateImages {
    /// The images of the machines of this cartridge and this recording, and of the one at power-on in a region:
    /// PAL, or NTSC. It fails only when memory runs out.
    pub fn make(
        alloc: Global,
        cart: Arc<Cart>,
        recording: Arc<Recording>,
        pal: bool,
    ) -> Result<StateImages, NoMemory>
        requires { All IsFrame (arc_value recording).frames }
        ensures { IfOk result (λ images. images ≡ record { cart = arc_value cart; recording = arc_value recording; pal = pal }) }
    {
        let replays = StateReplays::make(cart);
        let machine = replays.power_on(alloc, &recording, pal)?;
        let first = replays.write(alloc, &machine)?;
        Ok(StateImages {
            replays,
            recording,
            pal,
            first,
        })
    }

    /// The machine at power-on, which has an image. It fails only when memory runs out.
    pub fn first_machine(&self, alloc: Global) -> Result<Machine, NoMemory>
        ensures machine { IfOk result (λ machine. machine ≡ first_of self.now) }
        ensures own { HasImage self.now (first_of self.now) }
    {
        saved::power_on_is_reached(self.replays.cart());
        self.replays.power_on(alloc, &self.recording, self.pal)
    }
}

impl Images<Machine> for StateImages {
    ghost use Rattle.state_laws.specs.Images.{HasImage, Keeps, image_of, settled_of, size_of};

    ghost size = { size_of };

    ghost is_own = { HasImage };

    ghost spelling = { image_of };

    ghost keeps = { Keeps };

    ghost read_back = { settled_of };

    fn image_size(&self) -> usize {
        LENGTH
    }

    fn image(&self, alloc: Global, machine: &Machine) -> Result<Vec<u8>, NoMemory> {
        saved::reached_may_be_kept();
        self.replays.write(alloc, machine)
    }

    fn machine(&self, alloc: Global, bytes: &[u8]) -> Result<Machine, ImageFault> {
        if is_same(self.first.as_slice(), bytes) {
            return Ok(self.first_machine(alloc)?);
        }
        let read = self.replays.read(alloc, bytes, &self.recording)?;
        match read {
            Some(machine) => {
                saved::states_are_reached(&machine);
                Ok(machine)
            }
            None => Err(ImageFault::Form),
        }
    }
}

ghost use Rattle.std.specs.Prelude.{◌≡◌, ◌≢◌, ◌≤◌, ◌+◌, ◌++◌, ℕ, List, [], vec_len, vec_capacity, IfOk, Ok, Err};
ghost use Rattle.std.specs.Arc.{arc_value};
ghost use Rattle.md_word.specs.Clock.{last_cycle};
ghost use Rattle.md_chips.specs.Media.{no_media};
ghost use Rattle.save_state.specs.States.{settled_console};
ghost use Rattle.machine_laws.specs.Recorded.{with_recording};

use crate::fault::ReplayFault;
use md_machine::Machine;
use md_pads::Recording;
use md_word::NoMemory;
use std::alloc::Global;
use std::sync::Arc;

/// Images of the machines of one cartridge. An image keeps a machine without its recording, as it is once fill,
/// copy and timers are settled below its cycle; so it is read back with any recording.
pub trait Replays: Drop {
    ghost use Rattle.md_chips.specs.Console.{Console};

    /// How many bytes an image has.
    ghost size: { Self → ℕ };

    /// The cartridge of its machines.
    ghost cart: { Self → List ℕ };

    /// The bytes that keep a settled machine at a cycle.
    ghost spelling: { Self → ℕ → Console → List ℕ };

    /// The machines at a cycle that may be kept in an image.
    ghost is_ready: { Self → ℕ → Console → Type 0 };

    /// The settled machines at a cycle that images keep.
    ghost is_own: { Self → ℕ → Console → Type 0 };

    /// How many bytes an image has.
    fn image_size(&self) -> usize
        ensures { result ≡ size self.now };

    /// Appends the image of a machine, without taking memory: there is room for it, and for as much in `apart`,
    /// which is used meanwhile. The image of a machine that may be kept is read back.
    fn spell(&self, machine: &Machine, apart: &mut Vec<u8>, into: &mut Vec<u8>)
        requires cart { machine.now.console.cart ≡ cart self.now }
        requires cycle { machine.now.at ≤ last_cycle }
        requires apart { size self.now ≤ vec_capacity apart.old }
        requires room { vec_len into.old + size self.now ≤ vec_capacity into.old }
        ensures bytes { into.new.items ≡ into.old.items ++ spelling self.now machine.now.at (settled_console machine.now.at machine.now.console) }
        ensures sized { is_ready self.now machine.now.at machine.now.console → vec_len into.new ≡ vec_len into.old + size self.now }
        ensures own { is_ready self.now machine.now.at machine.now.console → is_own self.now machine.now.at (settled_console machine.now.at machine.now.console) }
        ensures room { vec_capacity into.old ≤ vec_capacity into.new }
        ensures apart { vec_capacity apart.old ≤ vec_capacity apart.new };

    /// The machine that an image keeps, with this recording. It fails with `Form` where the bytes are no image,
    /// and else only when memory runs out.
    fn machine(
        &self,
        alloc: Global,
        bytes: &[u8],
        recording: Arc<Recording>,
    ) -> Result<Machine, ReplayFault>
        // What is read is an image's machine, with the recording.
        ensures found { IfOk result (λ m. is_own self.now m.at m.console × (bytes.now ≡ spelling self.now m.at m.console)
            × (m.console.shared.recording ≡ arc_value recording) × (m.entries ≡ []) × (m.media ≡ no_media)) }
        // What an image keeps is read, unless memory runs out.
        ensures only { (at : ℕ) (m : Console) → is_own self.now at m → bytes.now ≡ spelling self.now at m → result ≢ Err ReplayFault.NoMemory
            → result ≡ Ok (record { at = at; console = with_recording (arc_value recording) m; entries = []; media = no_media }) };
}

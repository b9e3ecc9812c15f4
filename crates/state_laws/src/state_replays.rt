ghost use Rattle.std.specs.Prelude.{◌≡◌, ◌≢◌, ◌≤◌, ℕ, false, [], length, IfOk, IfSome, Ok, Err, Some};
ghost use Rattle.std.specs.Arc.{arc_value};
ghost use Rattle.md_word.specs.Clock.{last_cycle};
ghost use Rattle.md_chips.specs.Console.{power_on};
ghost use Rattle.md_chips.specs.Media.{no_media};
ghost use Rattle.md_chips.specs.Owners.{HasOneOwner};
ghost use Rattle.md_chips.specs.Starts.{IsStart, Start};
ghost use Rattle.save_state.specs.Layout.{state_size};
ghost use Rattle.save_state.specs.Ready.{IsReady};
ghost use Rattle.save_state.specs.States.{kept_bytes, settled_console, state_bytes};
ghost use Rattle.save_state.specs.Versions.{IsState};

use crate::owners::{is_same, same_cart, same_recording};
use crate::{ReplayFault, Replays};
use md_machine::Machine;
use md_pads::Recording;
use md_word::NoMemory;
use rom_header::Cart;
use save_state::laws::kept;
use save_state::{LENGTH, StateFault, read_with, spell, write_with};
use sha2::{Digest, Sha256};
use std::alloc::Global;
use std::marker::Model;
use std::sync::Arc;

/// Images that are saved states, and that of power-on of NTSC, of the machines of a cartridge, whose digest is
/// computed once. Contracts see the cartridge.
#[derive(Drop)]
pub struct StateReplays {
    cart: Arc<Cart>,
    digest: [u8; 32],
}

impl Model for StateReplays {
    ghost use Rattle.std.specs.Prelude.{◌≡◌, ℕ, List};
    ghost use Rattle.std.specs.Arc.{arc_value};
    ghost use Rattle.sha2.specs.Sha256.{sha256};

    ghost Value = { List ℕ };

    ghost view = { λ r. arc_value r.cart };

    ghost invariant = { λ r. r.digest ≡ sha256 (arc_value r.cart) };
}

impl StateReplays {
    /// The images of the machines of this cartridge.
    pub fn make(cart: Arc<Cart>) -> StateReplays
        ensures { result ≡ arc_value cart }
    {
        let digest = Sha256::digest(cart.bytes());
        StateReplays { cart, digest }
    }

    /// The cartridge.
    pub(crate) fn cart(&self) -> &Cart
        ensures { result.now ≡ self.now }
    {
        &self.cart
    }

    /// The machine of power-on with a recording, in a region: PAL, or NTSC. It fails only when memory runs out.
    pub(crate) fn power_on(
        &self,
        alloc: Global,
        recording: &Arc<Recording>,
        pal: bool,
    ) -> Result<Machine, NoMemory>
        ensures { IfOk result (λ m. m ≡ record { at = 0; console = power_on self.now (arc_value recording.now) pal; entries = []; media = no_media }) }
    {
        let cart = same_cart(&self.cart)?;
        let recording = same_recording(recording)?;
        Machine::power_on(alloc, cart, recording, pal)
    }

    /// The bytes of a machine of the cartridge. It fails only when memory runs out.
    pub(crate) fn write(&self, alloc: Global, machine: &Machine) -> Result<Vec<u8>, NoMemory>
        requires cycle { machine.now.at ≤ last_cycle }
        requires cart { machine.now.console.cart ≡ self.now }
        ensures bytes { IfOk result (λ bytes. bytes.items ≡ state_bytes machine.now.at machine.now.console) }
        ensures long { HasOneOwner machine.now.console → IfOk result (λ bytes. length bytes.items ≡ state_size) }
        ensures kept { IsReady machine.now.at machine.now.console
            → IfOk result (λ bytes. IsState machine.now.console.cart bytes.items (record { at = machine.now.at; console = settled_console machine.now.at machine.now.console })) }
    {
        write_with(alloc, machine, &self.digest)
    }

    /// The machine that bytes keep, with a recording; `None` where they are no saved state of the cartridge, of any
    /// version. It fails only when memory runs out.
    pub(crate) fn read(
        &self,
        alloc: Global,
        bytes: &[u8],
        recording: &Arc<Recording>,
    ) -> Result<Option<Machine>, NoMemory>
        ensures found { IfOk result (λ read. IfSome read (λ m. IsState self.now bytes.now (record { at = m.at; console = m.console }) × (m.console.shared.recording ≡ arc_value recording.now))) }
        ensures start { IfOk result (λ read. IfSome read (λ m. IsStart (record { at = m.at; console = m.console }))) }
        ensures empty { IfOk result (λ read. IfSome read (λ m. (m.entries ≡ []) × (m.media ≡ no_media))) }
        ensures only { (start : Start) → IsState self.now bytes.now start → start.console.shared.recording ≡ arc_value recording.now
            → IfOk result (λ read. read ≡ Some (record { at = start.at; console = start.console; entries = []; media = no_media })) }
    {
        let cart = same_cart(&self.cart)?;
        let recording = same_recording(recording)?;
        match read_with(alloc, bytes, &self.digest, cart, recording) {
            Ok(machine) => Ok(Some(machine)),
            Err(StateFault::NoMemory) => Err(NoMemory),
            Err(StateFault::Form { .. }) => Ok(None),
            Err(StateFault::OtherCart { .. }) => Ok(None),
        }
    }

    /// The machine of power-on, where the bytes are its image. It fails with `Form` where they are not, and
    /// else only when memory runs out.
    fn first(
        &self,
        alloc: Global,
        bytes: &[u8],
        recording: &Arc<Recording>,
    ) -> Result<Machine, ReplayFault>
        ensures found { IfOk result (λ m. (m ≡ record { at = 0; console = power_on self.now (arc_value recording.now) false; entries = []; media = no_media })
            × (bytes.now ≡ kept_bytes 0 (power_on self.now (arc_value recording.now) false))) }
        ensures only { bytes.now ≡ kept_bytes 0 (power_on self.now (arc_value recording.now) false) → result ≢ Err ReplayFault.NoMemory
            → result ≡ Ok (record { at = 0; console = power_on self.now (arc_value recording.now) false; entries = []; media = no_media }) }
    {
        let machine = self.power_on(alloc, recording, false)?;
        let image = self.write(alloc, &machine)?;
        if is_same(image.as_slice(), bytes) {
            return Ok(machine);
        }
        Err(ReplayFault::Form)
    }
}

impl Replays for StateReplays {
    ghost use Rattle.save_state.specs.Layout.{state_size};
    ghost use Rattle.save_state.specs.States.{kept_bytes};
    ghost use Rattle.state_laws.specs.Kept.{IsKept, MayBeKept};

    ghost size = { λ replays. state_size };

    ghost cart = { λ replays. replays };

    ghost spelling = { λ replays at m. kept_bytes at m };

    ghost is_ready = { λ replays at m. MayBeKept replays at m };

    ghost is_own = { λ replays at m. IsKept replays at m };

    fn image_size(&self) -> usize {
        LENGTH
    }

    fn spell(&self, machine: &Machine, apart: &mut Vec<u8>, into: &mut Vec<u8>) {
        kept(machine);
        spell(machine, &self.digest, apart, into);
    }

    fn machine(
        &self,
        alloc: Global,
        bytes: &[u8],
        recording: Arc<Recording>,
    ) -> Result<Machine, ReplayFault> {
        let read = self.read(alloc, bytes, &recording)?;
        match read {
            // states of an older version are no images
            Some(machine) => {
                if bytes.len() == LENGTH {
                    Ok(machine)
                } else {
                    Err(ReplayFault::Form)
                }
            }
            None => self.first(alloc, bytes, &recording),
        }
    }
}

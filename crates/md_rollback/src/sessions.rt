ghost use Rattle.std.specs.Prelude.{◌≡◌, ◌≢◌, ◌≤◌, ◌<◌, ◌+◌, ◌*◌, ◌^◌, ◌↔◌, ℕ, false, [], Some, None, slice_set, IfOk, OnOk, OnErr, IsErrOf, Err};
ghost use Rattle.md_pads.specs.Recording.{no_frames};
ghost use Rattle.md_word.specs.Clock.{frame as frame_length, last_cycle};
ghost use Rattle.md_chips.specs.Console.{power_on};
ghost use Rattle.md_chips.specs.Media.{no_media};
ghost use Rattle.md_rollback.specs.Inputs.{IsConfirmed, expected_frames, given, most_frames, no_words};
ghost use Rattle.md_rollback.specs.Images.{ReachBackTo};
ghost use Rattle.md_rollback.specs.Played.{IsMachineOf, KeepsReached};

use crate::fault::AdvanceFault;
use crate::frames::same_frames;
use crate::run_images::RunImages;
use crate::{InputFault, Inputs, KeptImages, MOST_FRAMES};
use md_machine::Machine;
use md_word::NoMemory;
use state_laws::Replays;
use std::alloc::Global;
use std::marker::Model;

/// A session of two players, frame by frame, for at most 36,000 frames. A player's buttons in a frame may be
/// given later than the frame is made. Then it is made with the buttons that are expected, those that were
/// given last before it, and made again where they turn out to be others.
#[derive(Drop)]
pub struct Session<R: Replays> {
    alloc: Global,
    inputs: Inputs,
    images: RunImages<R>,
    machine: Machine,
    window: usize,
}

impl<R: Replays> Model for Session<R> {
    ghost use Rattle.std.specs.Prelude.{◌≡◌, ◌+◌, length};
    ghost use Rattle.md_rollback.specs.Sessions.{IsSession, SessionValue};

    ghost Value = { SessionValue };

    ghost view = { λ s. record { window = s.window; local = s.inputs.local; remote = s.inputs.remote; confirmed = s.inputs.confirmed; frames = length s.images.played; machine = s.machine } };

    ghost invariant = { λ s. IsSession s.images.cart s.window s.inputs s.images.played s.machine × (s.images.most ≡ s.window + 1) };
}

impl<R: Replays> Session<R> {
    /// The session at power-on. The machine is that of power-on of NTSC with the cartridge of `replays` and a
    /// recording of no frames. The window is 1 to 16: so many frames it continues beyond those of which both
    /// players' buttons are known. The memory of all inputs and images is taken here. It fails only when memory
    /// runs out.
    pub fn make(
        alloc: Global,
        machine: Machine,
        replays: R,
        window: u32,
    ) -> Result<Session<R>, NoMemory>
        requires some { 1 ≤ window }
        requires most { window ≤ 16 }
        requires first { machine ≡ record { at = 0; console = power_on (R.cart replays) no_frames false; entries = []; media = no_media } }
        requires keeps { KeepsReached (R.cart replays) (R.is_ready replays) }
        ensures { IfOk result (λ session. session ≡ record { window = window; local = no_words; remote = no_words; confirmed = 0; frames = 0; machine = machine }) }
    {
        let inputs = Inputs::make(alloc)?;
        let images = RunImages::make(alloc, window + 1, replays, &machine)?;
        Ok(Session {
            alloc,
            inputs,
            images,
            machine,
            window: window as usize,
        })
    }

    /// Gives the buttons of player 1 in a frame. The frame is 0 to 35,999, and the buttons are bits 0 to 7. It
    /// fails where there is no such frame, where the frame's buttons were given, or where another bit is set.
    pub fn local(&mut self, frame: u64, buttons: u16) -> Result<(), InputFault>
        ensures ok { OnOk result (self.new ≡ record self.old { local = slice_set self.old.local frame (Some buttons); confirmed = self.new.confirmed }) }
        ensures err { OnErr result (self.new ≡ self.old) }
        ensures far { (last : ℕ) → IsErrOf result (InputFault.Far last) ↔ ((most_frames ≤ frame) × (last ≡ 35999)) }
        ensures given { (kept : ℕ) → IsErrOf result (InputFault.Given kept) ↔ (given self.old.local frame ≡ Some kept) }
        ensures buttons { (result ≡ Err InputFault.Buttons) ↔ ((frame < most_frames) × (given self.old.local frame ≡ None) × (2 ^ 8 ≤ buttons)) }
    {
        self.inputs.local(frame, buttons)
    }

    /// Gives the buttons of player 2 in a frame. The frame is 0 to 35,999, and the buttons are bits 0 to 7. It
    /// fails where there is no such frame, where the frame's buttons were given, or where another bit is set.
    pub fn remote(&mut self, frame: u64, buttons: u16) -> Result<(), InputFault>
        ensures ok { OnOk result (self.new ≡ record self.old { remote = slice_set self.old.remote frame (Some buttons); confirmed = self.new.confirmed }) }
        ensures err { OnErr result (self.new ≡ self.old) }
        ensures far { (last : ℕ) → IsErrOf result (InputFault.Far last) ↔ ((most_frames ≤ frame) × (last ≡ 35999)) }
        ensures given { (kept : ℕ) → IsErrOf result (InputFault.Given kept) ↔ (given self.old.remote frame ≡ Some kept) }
        ensures buttons { (result ≡ Err InputFault.Buttons) ↔ ((frame < most_frames) × (given self.old.remote frame ≡ None) × (2 ^ 8 ≤ buttons)) }
    {
        self.inputs.remote(frame, buttons)
    }

    /// Makes the next frame, with the frames before it as they are expected now. It waits for nobody. It fails
    /// where 36,000 frames were made, where it went its window beyond the confirmed frames, or when memory runs
    /// out. Then the session is as it was.
    pub fn advance(&mut self) -> Result<(), AdvanceFault>
        ensures frames { OnOk result (self.new.frames ≡ self.old.frames + 1) }
        // The machine is that of the frames so far with the expected buttons.
        ensures machine { OnOk result (IsMachineOf self.new.machine.console.cart (expected_frames self.old.local self.old.remote self.new.frames) self.new.frames self.new.machine) }
        ensures cart { self.new.machine.console.cart ≡ self.old.machine.console.cart }
        ensures stays { self.new ≡ record self.old { frames = self.new.frames; machine = self.new.machine } }
        ensures err { OnErr result (self.new ≡ self.old) }
        ensures ended { (result ≡ Err AdvanceFault.Ended) ↔ (self.old.frames ≡ most_frames) }
        ensures waiting { (confirmed frames : ℕ) → IsErrOf result (AdvanceFault.Waiting confirmed frames)
            ↔ ((self.old.frames ≢ most_frames) × (self.old.confirmed + self.old.window ≤ self.old.frames) × (confirmed ≡ self.old.confirmed) × (frames ≡ self.old.frames)) }
    {
        let played = self.images.played();
        let frames = played.len();
        let confirmed = self.inputs.confirmed();
        if frames == MOST_FRAMES {
            return Err(AdvanceFault::Ended);
        }
        if frames >= confirmed + self.window {
            return Err(AdvanceFault::Waiting {
                confirmed: confirmed as u64,
                frames: frames as u64,
            });
        }
        self.inputs.known();
        // the frames before the last ones of the window were played as they are expected
        let fixed = frames.saturating_sub(self.window);
        let expected = self
            .inputs
            .expected_after(self.alloc, &played[..fixed], frames + 1)?;
        let right = same_frames(played, expected.as_slice(), fixed);
        self.images
            .replay(self.alloc, &mut self.machine, expected, right)?;
        Ok(())
    }

    /// How many frames the machine made: at most 36,000.
    pub fn frames(&self) -> u64
        ensures frames { result ≡ self.now.frames }
        ensures few { result ≤ most_frames }
    {
        self.images.played().len() as u64
    }

    /// The greatest number of frames of which both players' buttons were all given.
    pub fn confirmed(&self) -> u64
        ensures confirmed { result ≡ self.now.confirmed }
        ensures greatest { IsConfirmed self.now.local self.now.remote result }
    {
        self.inputs.known();
        self.inputs.confirmed() as u64
    }

    /// The machine, at the start of the frame after those that it made.
    pub fn machine(&self) -> &Machine
        ensures machine { result.now ≡ self.now.machine }
        ensures at { result.now.at ≡ frame_length * self.now.frames }
        ensures near { result.now.at ≤ last_cycle }
    {
        &self.machine
    }

    /// The kept images, newest first, one more than the window has frames at most. Each frame that may still
    /// turn out wrong has one of its start, or of a frame at most three earlier. The frames are made again from
    /// there, so no more than three of them are before the first wrong one.
    pub fn images(&self) -> &KeptImages
        ensures near { (f : ℕ) → f ≤ self.now.frames → self.now.frames ≤ f + self.now.window → ReachBackTo f result.now.images }
        ensures most { result.now.most ≡ self.now.window + 1 }
    {
        self.images.kept()
    }
}

ghost use Rattle.std.specs.Prelude.{◌≡◌, ◌≤◌, ◌<◌, ◌+◌, ℕ, false, [], IfOk, OnOk, OnErr, length};
ghost use Rattle.md_pads.specs.Recording.{IsRecording, no_frames, recording_of};
ghost use Rattle.md_chips.specs.Console.{power_on};
ghost use Rattle.md_chips.specs.Media.{no_media};
ghost use Rattle.md_rollback.specs.Images.{ReachBackTo};
ghost use Rattle.md_rollback.specs.Inputs.{most_frames};
ghost use Rattle.md_rollback.specs.Played.{ArePlayedRight, IsPlayed, KeepsReached};

use crate::KeptImages;
use crate::recording::shared_recording;
use crate::replaying::{play, stand_at};
use machine_laws::saved;
use md_machine::Machine;
use md_word::NoMemory;
use state_laws::Replays;
use std::alloc::Global;
use std::marker::Model;

/// The newest images of the machines of a run from power-on, and the words of both players with which its frames
/// were made. The machine of a frame that turns out wrong is read back from them.
#[derive(Drop)]
pub(crate) struct RunImages<R: Replays> {
    replays: R,
    played: Vec<(u16, u16)>,
    kept: KeptImages,
}

impl<R: Replays> Model for RunImages<R> {
    ghost use Rattle.std.specs.Prelude.{◌≡◌};
    ghost use Rattle.md_rollback.specs.Played.{AreRunImages, RunImagesValue};

    ghost Value = { RunImagesValue };

    ghost view = { λ r. record { most = r.kept.most; cart = R.cart r.replays; played = r.played.items; images = r.kept.images } };

    ghost invariant = { λ r. AreRunImages (R.cart r.replays) (R.spelling r.replays) (R.is_ready r.replays) (R.is_own r.replays) r.kept.most r.played.items r.kept.images
        × (r.kept.size ≡ R.size r.replays) };
}

impl<R: Replays> RunImages<R> {
    /// The images of a run of no frames: that of its machine, which is the one of power-on of NTSC with the
    /// cartridge of `replays` and a recording of no frames. All memory that the images ever need is taken here. It
    /// fails only when memory runs out.
    pub(crate) fn make(
        alloc: Global,
        most: u32,
        replays: R,
        machine: &Machine,
    ) -> Result<RunImages<R>, NoMemory>
        requires some { 1 ≤ most }
        requires first { machine.now ≡ record { at = 0; console = power_on (R.cart replays) no_frames false; entries = []; media = no_media } }
        requires keeps { KeepsReached (R.cart replays) (R.is_ready replays) }
        ensures most { IfOk result (λ images. images.most ≡ most) }
        ensures played { IfOk result (λ images. images.played ≡ []) }
        ensures machine { IfOk result (λ images. IsPlayed images.cart images.played (length images.played) machine.now) }
    {
        saved::power_on_is_reached(machine.cart());
        let mut kept = KeptImages::make(alloc, most, replays.image_size())?;
        kept.keep(&replays, machine, 0);
        Ok(RunImages {
            replays,
            played: Vec::new(alloc),
            kept,
        })
    }

    /// The words with which the frames were made.
    pub(crate) fn played(&self) -> &[(u16, u16)]
        ensures { result.now ≡ self.now.played }
    {
        &self.played
    }

    /// The kept images, newest first.
    pub(crate) fn kept(&self) -> &KeptImages
        ensures images { result.now.images ≡ self.now.images }
        ensures most { result.now.most ≡ self.now.most }
        // Of each of the last frames one image is at its start, or at most three frames earlier.
        ensures near { (f : ℕ) → f ≤ length self.now.played → length self.now.played < f + self.now.most → ReachBackTo f result.now.images }
    {
        &self.kept
    }

    /// Brings the machine of the run to the end of the expected frames, of which those before `right` were played
    /// so. It continues from itself where only the last frame is new, else from the newest image that is early
    /// enough. Images of some of the frames after it replace the newer ones. It fails only when memory runs out.
    /// Then machine and images are as they were.
    pub(crate) fn replay(
        &mut self,
        alloc: Global,
        machine: &mut Machine,
        expected: Vec<(u16, u16)>,
        right: usize,
    ) -> Result<(), NoMemory>
        requires machine { IsPlayed self.old.cart self.old.played (length self.old.played) machine.old }
        requires recording { IsRecording (recording_of expected.items) }
        requires few { length expected.items ≤ most_frames }
        requires right { ArePlayedRight self.old expected.items right }
        ensures machine { OnOk result (IsPlayed self.old.cart expected.items (length expected.items) machine.new) }
        ensures played { OnOk result (self.new ≡ record self.old { played = expected.items; images = self.new.images }) }
        ensures err { OnErr result ((self.new ≡ self.old) × (machine.new ≡ machine.old)) }
    {
        let recording = shared_recording(alloc, expected.as_slice())?;
        let newer = self.kept.newer_than(right);
        let here = right == self.played.len();
        let from = stand_at(
            alloc,
            &self.replays,
            machine,
            here,
            &self.kept,
            newer,
            recording,
            right,
        )?;
        self.kept.drop_newest(newer);
        let to = expected.len();
        play(&self.replays, machine, from, right, to, &mut self.kept);
        self.played = expected;
        Ok(())
    }
}

ghost use Rattle.std.specs.Prelude.{◌≡◌, ◌≤◌, ◌<◌, ◌+◌, ◌-◌, ◌*◌, ◌%◌, ◌↔◌, ℕ, true, false, List, [], All, IfOk, IsTrue, OnErr, length};
ghost use Rattle.std.specs.Arc.{arc_value};
ghost use Rattle.md_pads.specs.Recording.{Frame, IsFrame};
ghost use Rattle.md_pads.specs.declared.version.Version.TheVariants.{First};
ghost use Rattle.md_word.specs.Clock.{frame as frame_length};
ghost use Rattle.md_chips.specs.Media.{no_media};
ghost use Rattle.md_rollback.specs.Inputs.{most_frames};
ghost use Rattle.md_rollback.specs.Images.{AreImagesBelow, ReachBackTo, image_at};
ghost use Rattle.md_rollback.specs.Played.{AreMade, IsImageOf, IsPlayed, IsPlayedAlike, KeepsReached};

use crate::KeptImages;
use machine_laws::{processors, saved};
use md_machine::{Machine, laws};
use md_pads::Recording;
use md_word::NoMemory;
use md_word::clock::FRAME;
use state_laws::{ReplayFault, Replays, settled};
use std::alloc::Global;
use std::sync::Arc;

/// Makes a frame.
pub(crate) fn play_frame(machine: &mut Machine, frame: usize)
    requires at { machine.old.at ≡ frame_length * frame }
    requires within { frame < most_frames }
    requires region { machine.old.console.pal ≡ false }
    requires entries { machine.old.entries ≡ [] }
    requires media { machine.old.media ≡ no_media }
    ensures played { (cart : List ℕ) (recording : List Frame) → IsPlayed cart recording frame machine.old → IsPlayed cart recording (frame + 1) machine.new }
{
    laws::joined();
    laws::parts_are_valid(machine);
    saved::runs_reach();
    settled::alike_machines_go_on();
    machine.alone(FRAME * (frame as u64 + 1));
    machine.discard();
}

/// The machine of an image at the start of a frame, with another recording. It fails only when memory runs out.
pub(crate) fn resume<R: Replays>(
    alloc: Global,
    replays: &R,
    bytes: &[u8],
    recording: Arc<Recording>,
    frame: usize,
) -> Result<Machine, NoMemory>
    requires first { (arc_value recording).version ≡ First }
    requires image { IsImageOf (R.cart replays.now) (R.spelling replays.now) (R.is_own replays.now) (arc_value recording).frames frame bytes.now }
    requires buttons { All IsFrame (arc_value recording).frames }
    ensures { IfOk result (λ machine. IsPlayed (R.cart replays.now) (arc_value recording).frames frame machine) }
{
    machine_laws::recordings::later_frames_are_unread();
    settled::settled_machines_are_reached();
    match replays.machine(alloc, bytes, recording) {
        Ok(machine) => {
            laws::parts_are_valid(&machine);
            processors::valid_machine(&machine);
            Ok(machine)
        }
        Err(ReplayFault::NoMemory) => Err(NoMemory),
        Err(ReplayFault::Form) => unreachable!(),
    }
}

/// A machine at the start of a frame continues with another recording, of which the frames before were the
/// same.
fn exchange(machine: &mut Machine, recording: Arc<Recording>)
    requires first { (arc_value recording).version ≡ First }
    requires buttons { All IsFrame (arc_value recording).frames }
    ensures { (cart : List ℕ) (frame : ℕ) → IsPlayedAlike cart (arc_value recording).frames frame machine.old → IsPlayed cart (arc_value recording).frames frame machine.new }
{
    machine_laws::recordings::later_frames_are_unread();
    machine.set_recording(recording);
    laws::parts_are_valid(machine);
    processors::valid_machine(machine);
}

/// Brings a machine to the start of a frame of a recording, and returns the frame. The machine is at `right`
/// already, `here`, or the image that follows so many newer ones keeps one, from which the frames up to `right`
/// are the same. It fails only when memory runs out.
pub(crate) fn stand_at<R: Replays>(
    alloc: Global,
    replays: &R,
    machine: &mut Machine,
    here: bool,
    images: &KeptImages,
    newer: usize,
    recording: Arc<Recording>,
    right: usize,
) -> Result<usize, NoMemory>
    requires first { (arc_value recording).version ≡ First }
    requires here { IsTrue here → IsPlayedAlike (R.cart replays.now) (arc_value recording).frames right machine.old }
    requires newer { newer < length images.now.images }
    requires early { (image_at images.now.images newer).frames ≤ right }
    requires image { IsImageOf (R.cart replays.now) (R.spelling replays.now) (R.is_own replays.now) (arc_value recording).frames (image_at images.now.images newer).frames (image_at images.now.images newer).bytes }
    requires buttons { All IsFrame (arc_value recording).frames }
    ensures played { IfOk result (λ from. IsPlayed (R.cart replays.now) (arc_value recording).frames from machine.new) }
    ensures between { IfOk result (λ from. ((image_at images.now.images newer).frames ≤ from) × (from ≤ right)) }
    ensures err { OnErr result (machine.new ≡ machine.old) }
{
    if here {
        exchange(machine, recording);
        return Ok(right);
    }
    let from = images.frames(newer);
    *machine = resume(alloc, replays, images.image(newer), recording, from)?;
    Ok(from)
}

/// Of the frames from the first wrong one on, or where none was wrong of the new one, one in so many keeps its image.
const APART: usize = 4;

/// Whether the image after a frame is kept, where the frames from `right` on are made with other words than
/// before, or for the first time. The image after the first of them is kept, since the frame after it is the
/// next that may turn out wrong where words come in their order. From there on one in four is: so no frame is
/// more than three after an image.
fn is_kept(frame: usize, right: usize) -> bool
    ensures { IsTrue result ↔ ((right ≤ frame) × ((frame - right) % 4 ≡ 0)) }
{
    frame >= right && (frame - right) % APART == 0
}

/// Makes a frame, and keeps the image after it where it is to be kept.
fn play_next<R: Replays>(
    replays: &R,
    machine: &mut Machine,
    frame: usize,
    kept: bool,
    images: &mut KeptImages,
)
    requires keeps { KeepsReached (R.cart replays.now) (R.is_ready replays.now) }
    requires played { IsPlayed (R.cart replays.now) machine.old.console.shared.recording.frames frame machine.old }
    requires within { frame < most_frames }
    requires size { images.old.size ≡ R.size replays.now }
    requires images { AreImagesBelow (IsImageOf (R.cart replays.now) (R.spelling replays.now) (R.is_own replays.now) machine.old.console.shared.recording.frames) (frame + 1) images.old.images }
    ensures played { IsPlayed (R.cart replays.now) machine.old.console.shared.recording.frames (frame + 1) machine.new }
    ensures images { AreMade (R.cart replays.now) (R.spelling replays.now) (R.is_own replays.now) machine.old.console.shared.recording.frames (frame + 1) images.old images.new }
    ensures newest { kept ≡ true → 1 ≤ images.old.most → (0 < length images.new.images) × ((image_at images.new.images 0).frames ≡ frame + 1) }
    ensures unkept { kept ≡ false → images.new ≡ images.old }
{
    play_frame(machine, frame);
    if kept {
        images.keep(replays, machine, frame + 1);
    }
}

/// Makes the frames from one to another, and keeps the images after some of those from `right` on.
pub(crate) fn play<R: Replays>(
    replays: &R,
    machine: &mut Machine,
    from: usize,
    right: usize,
    to: usize,
    images: &mut KeptImages,
)
    requires keeps { KeepsReached (R.cart replays.now) (R.is_ready replays.now) }
    requires played { IsPlayed (R.cart replays.now) machine.old.console.shared.recording.frames from machine.old }
    requires early { from ≤ right }
    requires some { 1 ≤ images.old.most }
    requires order { from ≤ to }
    requires within { to ≤ most_frames }
    requires size { images.old.size ≡ R.size replays.now }
    requires images { AreImagesBelow (IsImageOf (R.cart replays.now) (R.spelling replays.now) (R.is_own replays.now) machine.old.console.shared.recording.frames) (from + 1) images.old.images }
    ensures played { IsPlayed (R.cart replays.now) machine.old.console.shared.recording.frames to machine.new }
    ensures images { AreMade (R.cart replays.now) (R.spelling replays.now) (R.is_own replays.now) machine.old.console.shared.recording.frames to images.old images.new }
    ensures near { (window f : ℕ) → images.new.most ≡ window + 1 → right < f → f ≤ to → to ≤ f + window → ReachBackTo f images.new.images }
{
    for frame in from..to {
        play_next(replays, machine, frame, is_kept(frame, right), images);
    }
}

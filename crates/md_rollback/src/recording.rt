ghost use Rattle.std.specs.Prelude.{◌≡◌, IfOk};
ghost use Rattle.std.specs.Arc.{arc_value};
ghost use Rattle.md_pads.specs.Recording.{IsRecording, recording_of};

use md_pads::Recording;
use md_word::NoMemory;
use std::alloc::Global;
use std::sync::Arc;

/// The recording of these frames, for several owners. It fails only when memory runs out.
pub(crate) fn shared_recording(
    alloc: Global,
    frames: &[(u16, u16)],
) -> Result<Arc<Recording>, NoMemory>
    requires { IsRecording (recording_of frames.now) }
    ensures { IfOk result (λ recording. arc_value recording ≡ recording_of frames.now) }
{
    let recording = Recording::of(alloc, frames)?;
    Ok(Arc::new(alloc, recording)?)
}

ghost use Rattle.std.specs.Prelude.{◌≡◌, ◌≢◌, ℕ, ◌↔◌, Bool, IfOk, IsErrOf, Ok, Err};
ghost use Rattle.md_pads.specs.Recording.{InvalidAt, IsFrame, IsRecording, IsSpelled, Recorded, Spells, no_frames, pads_of, recording_of, six};

use crate::fault::RecFault;
use crate::version::Version;
use crate::{reading, writing};
use md_word::NoMemory;
use std::alloc::Global;
use std::marker::Model;

/// The greatest number of frames of a recording.
pub const MOST_FRAMES: u32 = 1_048_576;

/// The length of the count after a recording's lead, in bytes.
pub(crate) const COUNT: usize = 4;

/// What was pressed on two control pads, frame by frame, for at most 1,048,576 frames. Contracts see
/// its version and the list of its frames: the words of pad 1 and pad 2. Bits 0 to 7 of a word are Up, Down,
/// Left, Right, B, C, A and Start, and bits 8 to 11 of a six-button pad Z, Y, X and Mode. The others are 0.
/// Source: this project's profile.
#[derive(Drop)]
pub struct Recording {
    version: Version,
    frames: Vec<(u16, u16)>,
}

impl Model for Recording {
    ghost use Rattle.md_pads.specs.Recording.{IsRecording, Recorded};

    ghost Value = { Recorded };

    ghost view = { λ recording. record { version = recording.version; frames = recording.frames.items } };

    ghost invariant = { λ recording. IsRecording (record { version = recording.version; frames = recording.frames.items }) };
}

impl Recording {
    /// A recording of version 1 and of no frames. It takes no memory.
    pub fn empty(alloc: Global) -> Recording
        ensures { result ≡ no_frames }
    {
        Recording {
            version: Version::First,
            frames: Vec::new(alloc),
        }
    }

    /// The recording of version 1 of these frames: of two pads with three buttons. The frames are copied.
    /// It fails only when memory is out.
    pub fn of(alloc: Global, frames: &[(u16, u16)]) -> Result<Recording, NoMemory>
        requires { IsRecording (recording_of frames.now) }
        ensures { IfOk result (λ recording. recording ≡ recording_of frames.now) }
    {
        Ok(Recording {
            version: Version::First,
            frames: Vec::from_slice(alloc, frames)?,
        })
    }

    /// Reads the bytes of a recording. They begin with `MDREC001`, or with `MDREC002` and a big-endian word in
    /// which bits 0 and 1 say whether pad 1 and pad 2 have six buttons. Then come a big-endian count of frames in
    /// four bytes, and for each frame the words of pad 1 and pad 2, big-endian.
    ///
    /// It fails where the bytes spell no recording, with the offset of the first invalid one. Memory is asked for
    /// once, and only where they spell a recording: it fails then when memory is out.
    pub fn read(alloc: Global, bytes: &[u8]) -> Result<Recording, RecFault>
        // What is read is spelled so.
        ensures found { IfOk result (λ recording. Spells bytes.now recording) }
        // What is spelled so is read, unless memory runs out.
        ensures only { (recorded : Recorded) → Spells bytes.now recorded → result ≢ Err RecFault.NoMemory → result ≡ Ok recorded }
        // Bytes are refused exactly where they spell no recording, at the end of what one begins with.
        ensures form { (place : ℕ) → IsErrOf result (RecFault.Form place) ↔ InvalidAt bytes.now place }
        ensures memory { IsErrOf result RecFault.NoMemory → IsSpelled bytes.now }
    {
        let version = match reading::version_of(bytes) {
            Ok(version) => version,
            Err(place) => {
                return Err(RecFault::Form {
                    place: place as u64,
                });
            }
        };
        let (_, body) = bytes.split_at(reading::start(version) + COUNT);
        let frames = reading::frames_in(alloc, body)?;
        Ok(Recording { version, frames })
    }

    /// The one spelling of the recording, which `read` reads as this recording and no other. It fails only
    /// when memory is out.
    pub fn write(&self, alloc: Global) -> Result<Vec<u8>, NoMemory>
        ensures ok { IfOk result (λ bytes. Spells bytes.items self.now) }
        ensures only { IfOk result (λ bytes. (recorded : Recorded) → Spells bytes.items recorded → recorded ≡ self.now) }
    {
        writing::write(alloc, self.version, &self.frames)
    }

    /// The words of pad 1 and pad 2 in a frame. Past the end of the recording no button is pressed.
    pub fn pads_at(&self, frame: u64) -> (u16, u16)
        ensures words { result ≡ pads_of self.now frame }
        ensures buttons { IsFrame result }
    {
        self.frames.get(frame as usize).copied().unwrap_or((0, 0))
    }

    /// Whether a pad, 1 or 2, has six buttons.
    pub fn six(&self, pad: u8) -> bool
        ensures { result ≡ six self.now.version pad }
    {
        self.version.six(pad)
    }
}

ghost use Rattle.std.specs.Prelude.{◌≡◌, ◌<◌, ◌^◌, length, IfOk};
ghost use Rattle.md_pads.specs.Recording.{frame_bytes, spelling};

use crate::recording::COUNT;
use crate::version::Version;
use byteorder::{BigEndian, ByteOrder};
use md_word::NoMemory;
use std::alloc::Global;

fn frame_bytes(frame: (u16, u16)) -> [u8; 4]
    ensures { result ≡ frame_bytes frame }
{
    let mut bytes = [0; 4];
    BigEndian::write_u16(&mut bytes, frame.0);
    BigEndian::write_u16(&mut bytes[2..], frame.1);
    bytes
}

/// The spelling of the recording of a version and of these frames.
#[tactic(auto, unfolding(crate::specs::Recording::spelling))]
pub(crate) fn write(
    alloc: Global,
    version: Version,
    frames: &[(u16, u16)],
) -> Result<Vec<u8>, NoMemory>
    requires { length frames.now < 2 ^ 32 }
    ensures { IfOk result (λ bytes. bytes.items ≡ spelling (record { version = version; frames = frames.now })) }
{
    let lead = version.lead();
    let mut bytes = Vec::with_capacity(alloc, lead.len() + COUNT + 4 * frames.len())?;
    bytes.extend_from_slice(lead)?;
    let mut count = [0; 4];
    BigEndian::write_u32(&mut count, frames.len() as u32);
    bytes.extend_from_slice(&count)?;
    for frame in frames {
        bytes.extend_from_slice(&frame_bytes(*frame))?;
    }
    Ok(bytes)
}

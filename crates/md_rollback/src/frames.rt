ghost use Rattle.std.specs.Prelude.{◌≡◌, ◌≢◌, ◌<◌, ◌≤◌, ◌-◌, ℕ, length, IfOk};
ghost use Rattle.md_rollback.specs.Inputs.{expected_frames, frame_at, most_frames};

use crate::words::expected_word;
use md_word::NoMemory;
use std::alloc::Global;

/// The words of both players in the last of some frames, 0 where there is none.
fn last_words(frames: &[(u16, u16)]) -> (u16, u16)
    ensures { result ≡ frame_at frames.now (length frames.now - 1) }
{
    frames
        .get(frames.len().saturating_sub(1))
        .copied()
        .unwrap_or((0, 0))
}

/// The recording that is expected of so many frames, from that of the first ones. It fails only when memory runs
/// out.
#[tactic(auto, unfolding(crate::specs::Inputs::expected_frames))]
pub(crate) fn expected_frames(
    alloc: Global,
    local: &[Option<u16>],
    remote: &[Option<u16>],
    known: &[(u16, u16)],
    count: usize,
) -> Result<Vec<(u16, u16)>, NoMemory>
    requires local { length local.now ≡ most_frames }
    requires remote { length remote.now ≡ most_frames }
    requires known { known.now ≡ expected_frames local.now remote.now (length known.now) }
    requires fewer { length known.now ≤ count }
    requires within { count ≤ most_frames }
    ensures { IfOk result (λ frames. frames.items ≡ expected_frames local.now remote.now count) }
{
    let mut frames = Vec::with_capacity(alloc, count)?;
    frames.extend_from_slice(known)?;
    let last = last_words(known);
    let mut first = last.0;
    let mut second = last.1;
    for frame in known.len()..count {
        first = expected_word(local, frame, first);
        second = expected_word(remote, frame, second);
        frames.push_reserved((first, second));
    }
    Ok(frames)
}

/// How many of the first frames are the same in both recordings, of which the first ones are known to be.
pub(crate) fn same_frames(played: &[(u16, u16)], expected: &[(u16, u16)], known: usize) -> usize
    requires shorter { length played.now ≤ length expected.now }
    requires within { known ≤ length played.now }
    requires known { (f : ℕ) → f < known → frame_at played.now f ≡ frame_at expected.now f }
    ensures within { result ≤ length played.now }
    ensures same { (f : ℕ) → f < result → frame_at played.now f ≡ frame_at expected.now f }
    ensures differs { result < length played.now → frame_at played.now result ≢ frame_at expected.now result }
{
    for frame in known..played.len() {
        if played[frame] != expected[frame] {
            return frame;
        }
    }
    played.len()
}

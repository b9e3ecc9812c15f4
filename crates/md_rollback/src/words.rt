ghost use Rattle.std.specs.Prelude.{◌≡◌, ◌<◌, ◌≤◌, ◌^◌, ◌↔◌, ◌+◌, ℕ, Some, None, length, slice_set, IfOk, OnOk, OnErr, IsErrOf, Err};
ghost use Rattle.md_rollback.specs.Inputs.{AreGiven, IsConfirmed, given, latest, most_frames, no_words};

use crate::input_fault::InputFault;
use md_word::NoMemory;
use std::alloc::Global;

/// The frames that a session has at most.
pub const MOST_FRAMES: usize = 36_000;

/// The last of them.
const LAST_FRAME: u64 = 35_999;

/// The bits of a word that name a button.
const BUTTONS: u16 = 0xff;

/// The words of a player who gave none. It fails only when memory runs out.
pub(crate) fn none_given(alloc: Global) -> Result<Vec<Option<u16>>, NoMemory>
    ensures { IfOk result (λ words. words.items ≡ no_words) }
{
    let mut words = Vec::with_capacity(alloc, MOST_FRAMES)?;
    for frame in 0..MOST_FRAMES {
        let _frame = frame;
        words.push_reserved(None);
    }
    Ok(words)
}

/// Gives a player's word of a frame. The frame is 0 to 35,999, and the buttons are bits 0 to 7. It fails where
/// there is no such frame, where the frame's buttons were given, or where another bit is set.
pub(crate) fn give(words: &mut [Option<u16>], frame: u64, buttons: u16) -> Result<(), InputFault>
    requires { length words.old ≡ most_frames }
    ensures ok { OnOk result (words.new ≡ slice_set words.old frame (Some buttons)) }
    ensures free { OnOk result ((frame < most_frames) × (given words.old frame ≡ None) × (buttons < 2 ^ 8)) }
    ensures err { OnErr result (words.new ≡ words.old) }
    ensures far { (last : ℕ) → IsErrOf result (InputFault.Far last) ↔ ((most_frames ≤ frame) × (last ≡ 35999)) }
    ensures given { (kept : ℕ) → IsErrOf result (InputFault.Given kept) ↔ (given words.old frame ≡ Some kept) }
    ensures buttons { (result ≡ Err InputFault.Buttons) ↔ ((frame < most_frames) × (given words.old frame ≡ None) × (2 ^ 8 ≤ buttons)) }
{
    if frame > LAST_FRAME {
        return Err(InputFault::Far { last: LAST_FRAME });
    }
    let place = frame as usize;
    if let Some(kept) = words[place] {
        return Err(InputFault::Given { kept });
    }
    if buttons > BUTTONS {
        return Err(InputFault::Buttons);
    }
    words[place] = Some(buttons);
    Ok(())
}

/// The first frame from one on of which a word is missing.
pub(crate) fn first_missing(local: &[Option<u16>], remote: &[Option<u16>], from: usize) -> usize
    requires local { length local.now ≡ most_frames }
    requires remote { length remote.now ≡ most_frames }
    requires within { from ≤ most_frames }
    requires below { (f : ℕ) → f < from → AreGiven local.now remote.now f }
    ensures { IsConfirmed local.now remote.now result }
{
    for frame in from..MOST_FRAMES {
        if local[frame].is_none() || remote[frame].is_none() {
            return frame;
        }
    }
    MOST_FRAMES
}

/// The word that is expected in a frame, where the latest before it is this.
pub(crate) fn expected_word(words: &[Option<u16>], frame: usize, last: u16) -> u16
    requires within { frame < length words.now }
    requires latest { last ≡ latest words.now frame }
    ensures { result ≡ latest words.now (frame + 1) }
{
    words[frame].unwrap_or(last)
}

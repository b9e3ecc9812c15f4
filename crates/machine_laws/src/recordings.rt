//! A law of the machine and the recording of its pads, on a call that does nothing and stands for what it ensures.

ghost use Rattle.std.specs.Prelude.{ℕ, List};
ghost use Rattle.md_word.specs.declared.event.Entry.{Entry};
ghost use Rattle.md_pads.specs.Recording.{Frame};
ghost use Rattle.md_chips.specs.Console.{Console, IsRunTo};
ghost use Rattle.md_chips.specs.Media.{Media};
ghost use Rattle.machine_laws.specs.Recorded.{AreAlikeBelow, with_frames};

/// A run to a cycle reads of a recording only the frames whose line after the picture, 224 or on PAL 240,
/// begins below it: with other frames in its recording that have the same words there it has the same entries,
/// frames and samples, and ends at the same machine but for them.
pub fn later_frames_are_unread()
    ensures { (m z : Console) (one other : List Frame) (end : ℕ) (entries : List Entry) (output : Media) → AreAlikeBelow m.shared.vdp.pal end one other
        → IsRunTo (with_frames one m) end z entries output → IsRunTo (with_frames other m) end (with_frames other z) entries output }
{}

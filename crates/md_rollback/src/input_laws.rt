//! Laws of the expected inputs, as calls that do nothing and stand for what they ensure.

ghost use Rattle.std.specs.Prelude.{◌≡◌, ℕ, ◌≤◌};
ghost use Rattle.md_rollback.specs.Inputs.{IsConfirmed, IsExpected, IsMore, Words, expected, expected_frames};

/// The expected word of a frame is its own, where that was given, or that of the last frame before it whose word
/// was given, or 0.
pub fn expected_is_latest()
    ensures { (words : Words) (f : ℕ) → IsExpected words f (expected words f) }
{}

/// Of confirmed frames the expected recording is that of all words that are ever given.
pub fn confirmed_frames_stay()
    ensures { (local remote more_local more_remote : Words) (confirmed n : ℕ) → IsConfirmed local remote confirmed → n ≤ confirmed
        → IsMore local more_local → IsMore remote more_remote → expected_frames more_local more_remote n ≡ expected_frames local remote n }
{}

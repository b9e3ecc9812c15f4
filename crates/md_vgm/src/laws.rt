//! Laws on VGM files, as calls that do nothing and stand for what they ensure.

ghost use Rattle.std.specs.Prelude.{◌≡◌, ℕ, Bool, List};
ghost use Rattle.md_vgm.specs.Outcomes.{IsMade, IsPlayed, Outcome};

/// A journal has one outcome alone: it is accepted or refused, and at one place.
pub fn journals_have_one_outcome()
    ensures { (pal : Bool) (journal : List ℕ) (first second : Outcome) → IsMade pal journal first → IsMade pal journal second → first ≡ second }
{}

/// So does a VGM file.
pub fn files_have_one_outcome()
    ensures { (pal : Bool) (file : List ℕ) (first second : Outcome) → IsPlayed pal file first → IsPlayed pal file second → first ≡ second }
{}

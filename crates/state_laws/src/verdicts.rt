//! Laws of saved states, each on a call that does nothing: whatever bytes there are, they are exactly one of a
//! state of a cartridge, a state of another one, and invalid at an offset.

ghost use Rattle.std.specs.Prelude.{◌≡◌, ℕ, List};
ghost use Rattle.md_fields.specs.Places.{IsBytes};
ghost use Rattle.md_chips.specs.Starts.{Start};
ghost use Rattle.md_pads.specs.Recording.{Recorded};
ghost use Rattle.save_state.specs.Versions.{IsState};
ghost use Rattle.state_laws.specs.Verdicts.{IsStateVerdict, StateVerdict};

/// Any list of bytes, with any cartridge and any recording of the pads, keeps a machine, or is a state of another
/// cartridge, or is invalid at a least offset.
pub fn bytes_have_a_verdict()
    ensures { (cart : List ℕ) (recording : Recorded) (bytes : List ℕ) → IsBytes bytes → (verdict : StateVerdict) × IsStateVerdict cart recording bytes verdict }
{}

/// It is one of these alone: no other machine, no other digests, and no other offset.
pub fn verdicts_are_one()
    ensures { (cart : List ℕ) (recording : Recorded) (bytes : List ℕ) (a b : StateVerdict) → IsStateVerdict cart recording bytes a
        → IsStateVerdict cart recording bytes b → a ≡ b }
{}

/// So the bytes of a state keep one machine alone, at one cycle, but for the recording of the pads, which has no
/// part in them.
pub fn states_keep_one_machine()
    ensures { (cart bytes : List ℕ) (a b : Start) → IsState cart bytes a → IsState cart bytes b
        → a.console.shared.recording ≡ b.console.shared.recording → a ≡ b }
{}

//! Laws of the definitions that the contracts cite, each on a call that does nothing else.
ghost use Rattle.std.specs.Prelude.{◌≡◌, ℕ, List};
ghost use Rattle.md_outer.specs.Outside.{Files};
ghost use Rattle.md_pads.specs.Recording.{Recorded, Spells};
ghost use Rattle.md_chips.specs.Starts.{Start};
ghost use Rattle.md_args.specs.Words.{Run};
ghost use Rattle.md_top.specs.Inputs.{IsVerdict, Verdict};
ghost use Rattle.md_top.specs.Laws.{ProgramLaws};
ghost use Rattle.md_top.specs.Loads.{Begins};

use md_debug::session_laws::debug_laws;
use md_machine::laws;
use md_pads::Recording;
use md_rollback::outcome_laws::rollback_laws;
use state_laws::verdicts::states_keep_one_machine;
use std::alloc::Global;

/// No bytes spell two recordings.
pub fn bytes_spell_one_recording()
    ensures { (bytes : List ℕ) (a b : Recorded) → Spells bytes a → Spells bytes b → a ≡ b }
{}

/// With the same files no run begins from two starts: they hold one cartridge, spell one recording alone, and keep
/// one machine alone.
pub fn runs_begin_once()
    ensures { (run : Run) (files : Files) (a b : Start) → Begins run files a → Begins run files b → a ≡ b }
{
    bytes_spell_one_recording();
    states_keep_one_machine();
}

/// What holds of the definitions that the answers of the program cite.
pub fn program_laws()
    ensures { ProgramLaws }
{
    laws::pads_are_recorded();
    laws::frames_counted();
    laws::samples_counted();
    debug_laws();
    rollback_laws();
}

/// Whatever bytes the file of a recording holds, there is a verdict on them. It is found by reading
/// them.
pub fn bytes_have_a_verdict(alloc: Global, bytes: &[u8])
    ensures { (verdict : Verdict) × IsVerdict bytes.now verdict }
{
    let _ = Recording::read(alloc, bytes);
}

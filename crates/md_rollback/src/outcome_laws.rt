//! Laws of the outcomes of scripts and of images that are saved states, as calls that do nothing and stand for
//! what they ensure.

ghost use Rattle.std.specs.Prelude.{◌≡◌, ◌≢◌, ℕ, List};
ghost use Rattle.state_laws.specs.Kept.{MayBeKept};
ghost use Rattle.md_rollback.specs.Played.{KeepsReached};
ghost use Rattle.md_rollback.specs.Laws.{RollbackLaws};
ghost use Rattle.md_rollback.specs.Rolls.{CompletesWith};
ghost use Rattle.md_rollback.specs.declared.rolled.Completion.{Completion};
ghost use Rattle.md_rollback.specs.declared.rolled.Completion.TheVariants.{NoMemory};

use crate::input_laws::expected_is_latest;
use crate::laws::confirmed_machines_stay;
use machine_laws::saved;
use md_machine::laws;

/// Saved states keep the machines of power-on, and each that a run reaches.
pub fn states_may_be_kept()
    ensures { (cart : List ℕ) → KeepsReached cart (MayBeKept cart) }
{
    saved::reached_may_be_kept();
}

/// A script has one outcome alone, where memory suffices.
pub fn scripts_have_one_outcome()
    ensures { (cart : List ℕ) (window : ℕ) (text : List ℕ) (first second : Completion) → CompletesWith cart window text first → CompletesWith cart window text second
        → first ≢ NoMemory → second ≢ NoMemory → first ≡ second }
{
    laws::one_run();
}

/// This, and what holds of the words that are expected, for whoever cites it.
pub fn rollback_laws()
    ensures { RollbackLaws }
{
    scripts_have_one_outcome();
    expected_is_latest();
    confirmed_machines_stay();
}

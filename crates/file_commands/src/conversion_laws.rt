//! Laws of the definitions that the contracts cite, each on a call that does nothing else.

ghost use Rattle.std.specs.Prelude.{◌≡◌, ◌≤◌, ◌⊎◌, length};
ghost use Rattle.md_outer.specs.Outside.{DepotState, Rose, bytes_of};
ghost use Rattle.md_vgm.specs.Outcomes.{Outcome};
ghost use Rattle.md_args.specs.Shown.{shown_conversion};
ghost use Rattle.md_args.specs.Words.{Conversion};
ghost use Rattle.file_commands.specs.Conversions.{HasCause, IsOutcome, limit, right_completion};
ghost use Rattle.file_commands.specs.declared.converted.Converted.{Converted as Completion};
ghost use Rattle.file_commands.specs.declared.converted.Converted.TheVariants.{NoMemory};

use crate::making::make;
use md_args::ConvertWords;
use std::alloc::Global;

/// Whatever an input holds within its limit, it has an outcome, which making it finds.
pub fn inputs_have_an_outcome(alloc: Global, words: &ConvertWords<'_>, bytes: &[u8])
    requires { length bytes.now ≤ limit }
    ensures { (outcome : Outcome) × IsOutcome (shown_conversion words.now) bytes.now outcome }
{
    let _ = make(alloc, words, bytes);
}

/// Where no fault rises and the store's files are observable, a conversion results in what the outcome of its input says,
/// or in out of memory.
pub fn conversions_end_as_they_should()
    ensures { (conversion : Conversion) (old new : DepotState) (completion : Completion) (outcome : Outcome)
        → ¬ Rose old.read_faults new.read_faults → ¬ Rose old.write_faults new.write_faults
        → HasCause (Unit {0}) conversion old new completion → IsOutcome conversion (bytes_of old.files conversion.input) outcome
        → (completion ≡ right_completion (old.files conversion.input) outcome) ⊎ (completion ≡ NoMemory) }
{}

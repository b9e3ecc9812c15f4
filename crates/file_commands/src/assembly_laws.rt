//! Laws of the definitions that the contracts cite, each on a call that does nothing else.

ghost use Rattle.std.specs.Prelude.{◌≡◌, ◌⊎◌};
ghost use Rattle.md_outer.specs.Outside.{DepotState, Rose};
ghost use Rattle.md_args.specs.Words.{Assembling};
ghost use Rattle.file_commands.specs.Assemblies.{HasCause, right_completion};
ghost use Rattle.file_commands.specs.declared.completion.Completion.{Completion as Completion};
ghost use Rattle.file_commands.specs.declared.completion.Completion.TheVariants.{NoMemory};

/// Where no fault rises and the store's files are observable, the assembling of a file results in what its source says,
/// or in out of memory.
pub fn assemblies_end_as_they_should()
    ensures { (words : Assembling) (old new : DepotState) (completion : Completion)
        → ¬ Rose old.read_faults new.read_faults → ¬ Rose old.write_faults new.write_faults
        → HasCause (Unit {0}) words old new completion
        → (completion ≡ right_completion (old.files words.source)) ⊎ (completion ≡ NoMemory) }
{}

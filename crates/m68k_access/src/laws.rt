ghost use Rattle.std.specs.Prelude.{ℕ, ◌<◌};
ghost use Rattle.md_word.specs.Width.{modulus_of};
ghost use Rattle.md_word.specs.declared.flags.Flags.{Flags};
ghost use Rattle.md_word.specs.declared.size.Size.{Size};
ghost use Rattle.m68k_access.specs.Laws.{ActionsIgnoreLaterAnswers, ConditionsCompare};

/// Answers beyond those that it takes change nothing of an action.
pub fn later_answers_change_nothing()
    ensures { ActionsIgnoreLaterAnswers }
{}

/// After CMP the sixteen conditions are comparisons of the numbers that were compared.
pub fn conditions_compare()
    ensures { (size : Size) (source target : ℕ) (flags : Flags) → source < modulus_of size → target < modulus_of size
        → ConditionsCompare size source target flags }
{}

ghost use Rattle.std.specs.Prelude.{ℕ, ◌<◌};
ghost use Rattle.z80_exec.specs.Laws.{ConditionsCompare, PopsWhatWasPushed, RefreshRises, ReturnsToTheCaller, SamplesAreBounded, SamplesIgnoreLaterAnswers};

/// Answers beyond those that it took change nothing of what an instruction or a sample came to.
pub fn later_answers_change_no_sample()
    ensures { SamplesIgnoreLaterAnswers }
{}

/// A sample's clocks cover its accesses, and it waits only for a shared read or write, with fewer than
/// four answers.
pub fn samples_are_bounded()
    ensures { SamplesAreBounded }
{}

/// Each instruction but LD R,A raises the low seven bits of R by 1 or by 2, and leaves bit 7; an
/// interrupt leaves R.
pub fn refresh_rises()
    ensures { RefreshRises }
{}

/// A word that is pushed in RAM is popped again.
pub fn pops_what_was_pushed()
    ensures { PopsWhatWasPushed }
{}

/// RET returns to the instruction after a call, and to where an interrupt was taken.
pub fn returns_to_the_caller()
    ensures { ReturnsToTheCaller }
{}

/// After CP the conditions compare A with the operand.
pub fn conditions_compare()
    ensures { (a b f : ℕ) → a < 0x100 → b < 0x100 → ConditionsCompare a b f }
{}

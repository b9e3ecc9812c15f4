ghost use Rattle.m68k_exec.specs.Laws.{CountsAreFew, SamplesAreBounded, SamplesAskRightly, SamplesIgnoreLaterAnswers};

pub use m68k_access::laws::{conditions_compare, later_answers_change_nothing};

/// Answers beyond those that it took change nothing of the outcome of a sample.
pub fn later_answers_change_no_sample()
    ensures { SamplesIgnoreLaterAnswers }
{}

/// What a sample spends, and with how many answers it can still wait.
pub fn samples_are_bounded()
    ensures { SamplesAreBounded }
{}

/// What a sample can ask for, and that it leaves the status register with its own bits alone.
pub fn samples_ask_rightly()
    ensures { SamplesAskRightly }
{}

/// The counts on which an instruction's time depends are at most 64.
pub fn counts_are_few()
    ensures { CountsAreFew }
{}

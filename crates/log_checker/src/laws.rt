//! What checked steps are worth.
ghost use Rattle.log_checker.specs.Laws.{AnswerLaw, LogLaw, RefuteLaw, StepLaw};

/// A step has one answer, want of memory apart: so Ok comes exactly where the step follows, and
/// each refusal exactly where it is the first that applies.
pub fn one_answer()
    ensures { AnswerLaw }
{}

/// Each assignment that satisfies the known clauses satisfies the clause of a step that follows
/// from them.
pub fn step_law()
    ensures { StepLaw }
{}

/// Each assignment that satisfies the main list satisfies each clause of a sound log, and none of
/// these makes all assumptions true that a clause of the log refutes.
pub fn log_law()
    ensures log { LogLaw }
    ensures refuted { RefuteLaw }
{}

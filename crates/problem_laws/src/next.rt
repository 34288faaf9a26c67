ghost use Rattle.std.specs.Prelude.{◌≡◌, [], ◌∷◌, ◌++◌};
ghost use Rattle.merge_model.specs.declared.problem.Problem.{Problem};
ghost use Rattle.problem_reading.specs.declared.stop.TextFault.{TextFault};
ghost use Rattle.problem_reading.specs.declared.stop.TextKind.{TextKind};
ghost use Rattle.problem_reading.specs.Lines.{AreFaultless, IsCanonicalNext, IsNextFault, Spell};
ghost use Rattle.problem_laws.specs.HasOutcome.{HasOutcome};
ghost use Rattle.problem_laws.specs.HasEnding.{HasEnding, EndsWith};
ghost use Rattle.problem_laws.specs.Sameness.{SameProblem, SameFault};

use problem_reading::Reading;

/// Each line after lines without a fault may join them or has exactly one least fault, and never
/// both.
pub fn each_next_line_has_one_outcome(reading: &Reading, next: &[u8])
    ensures has_outcome { AreFaultless reading.now → HasOutcome reading.now next.now }
    ensures one_fault { (k j : TextKind) → IsNextFault reading.now next.now k →
        IsNextFault reading.now next.now j → k ≡ j }
    ensures never_both { (k : TextKind) → IsNextFault reading.now next.now k →
        AreFaultless (reading.now ++ next.now ∷ []) → ⊥ }
{}

/// A line with a fault is no canonical next line.
pub fn refused_is_not_canonical(reading: &Reading, next: &[u8])
    ensures { (k : TextKind) → IsNextFault reading.now next.now k →
        IsCanonicalNext reading.now next.now → ⊥ }
{}

/// Lines without a fault spell exactly one problem or end with exactly one fault, and never both:
/// that there is no atom, or that there are atoms and no agent.
pub fn each_end_has_one_outcome(reading: &Reading)
    ensures has_ending { AreFaultless reading.now → HasEnding reading.now }
    ensures one_problem { (p q : Problem) → Spell reading.now p → Spell reading.now q →
        SameProblem p q }
    ensures one_fault { (f g : TextFault) → EndsWith reading.now f → EndsWith reading.now g →
        SameFault f g }
    ensures never_both { (p : Problem) (f : TextFault) → Spell reading.now p →
        EndsWith reading.now f → ⊥ }
{}

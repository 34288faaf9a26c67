ghost use Rattle.merge_model.specs.declared.problem.Problem.{Problem};
ghost use Rattle.problem_reading.specs.declared.stop.TextFault.{TextFault};
ghost use Rattle.problem_reading.specs.Spelling.{Spelled, FirstFault};
ghost use Rattle.problem_laws.specs.HasReading.{HasReading};
ghost use Rattle.problem_laws.specs.Sameness.{SameProblem, SameFault};

/// Each text spells exactly one problem or has exactly one first fault, and never both.
pub fn each_text_has_one_reading(bytes: &[u8])
    ensures has_reading { HasReading bytes.now }
    ensures one_problem { (p q : Problem) → Spelled bytes.now p → Spelled bytes.now q →
        SameProblem p q }
    ensures one_fault { (f g : TextFault) → FirstFault bytes.now f → FirstFault bytes.now g →
        SameFault f g }
    ensures never_both { (p : Problem) (f : TextFault) → Spelled bytes.now p →
        FirstFault bytes.now f → ⊥ }
{}

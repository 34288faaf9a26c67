//! That each text is accepted or refused.
ghost use Rattle.std.specs.Prelude.{◌≡◌, ℕ};
ghost use Rattle.report_lines.specs.declared.kinds.Kind.{Kind};
ghost use Rattle.report_lines.specs.declared.kinds.RefusedKind.{RefusedKind};
ghost use Rattle.report_lines.specs.Judged.{IsAccepted, IsFirstWrong};
ghost use Rattle.report_laws.specs.HasVerdict.{HasVerdict};

/// Each text is accepted as a report of exactly one kind, or has exactly one first wrong line,
/// which is wrong in one way, and never both.
pub fn each_report_has_one_verdict(bytes: &[u8])
    ensures has_verdict { HasVerdict bytes.now }
    ensures one_kind { (k j : Kind) → IsAccepted bytes.now k → IsAccepted bytes.now j → k ≡ j }
    ensures one_line { (m n : ℕ) (k j : RefusedKind) → IsFirstWrong bytes.now m k →
        IsFirstWrong bytes.now n j → (m ≡ n) × (k ≡ j) }
    ensures never_both { (answer : Kind) (line : ℕ) (k : RefusedKind) →
        IsAccepted bytes.now answer → IsFirstWrong bytes.now line k → ⊥ }
{}

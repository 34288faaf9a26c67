ghost use Rattle.std.specs.Prelude.{◌≡◌, ◌≢◌, ◌≤◌, length};
ghost use Rattle.formulas.specs.Formulas.{width_of, depth_of};
ghost use Rattle.formula_text.specs.CanonicalText.{formula_text};
ghost use Rattle.formula_grammar.specs.declared.read.FormulaStop.{FormulaStop};
ghost use Rattle.formulas.specs.declared.formula.Formula.{Formula};
ghost use Rattle.formulas.specs.Limits.{depth_limit};
ghost use Rattle.formulas.specs.Names.{names_of};
ghost use Rattle.formula_grammar.specs.Readings.{IsReadOrStopped, IsTextRead, IsTextStop};

use formulas::{Atoms, Formula};

/// Each text is read as exactly one formula or has exactly one least fault, and never both. Want of
/// memory is no fault.
pub fn each_text_has_one_outcome(text: &[u8], atoms: &Atoms)
    ensures has_outcome { IsReadOrStopped (names_of atoms.now) text.now }
    ensures one_formula { (f g : Formula) → IsTextRead (names_of atoms.now) text.now f →
        IsTextRead (names_of atoms.now) text.now g → f ≡ g }
    ensures read_or_stopped { (f : Formula) (stop : FormulaStop) →
        IsTextRead (names_of atoms.now) text.now f →
        IsTextStop (names_of atoms.now) text.now stop → stop ≡ FormulaStop.NoMemory }
    ensures one_stop { (s t : FormulaStop) → IsTextStop (names_of atoms.now) text.now s →
        IsTextStop (names_of atoms.now) text.now t → s ≢ FormulaStop.NoMemory →
        t ≢ FormulaStop.NoMemory → s ≡ t }
{}

/// The canonical text of a formula that is not too deep is read as that formula.
pub fn canonical_text_is_read_back(formula: &Formula, atoms: &Atoms)
    requires width { width_of formula.now ≤ length atoms.now }
    requires depth { depth_of formula.now ≤ depth_limit }
    ensures { IsTextRead (names_of atoms.now)
        (formula_text (names_of atoms.now) formula.now) formula.now }
{
    // The proof needs the invariant of the atoms, which `len` tells.
    let _count = atoms.len();
}

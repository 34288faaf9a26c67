//! Whether a clause refutes assumptions.
ghost use Rattle.std.specs.Prelude.{◌↔◌, IsTrue};
ghost use Rattle.clause_store.specs.Refutes.{Refutes};

use clause_store::{Lit, has_lit};

/// Whether each literal of the clause is the negation of an assumption.
pub fn refutes(clause: &[Lit], assumptions: &[Lit]) -> bool
    ensures { IsTrue result ↔ Refutes clause.now assumptions.now }
{
    for lit in clause {
        if !has_lit(assumptions, lit.negated()) {
            return false;
        }
    }
    true
}

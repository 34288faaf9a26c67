//! What the blocks of clauses share.

ghost use Rattle.std.specs.Prelude.{◌≡◌, [], ◌∷◌, ◌++◌, OnOk, OnErr};
ghost use Rattle.clause_store.specs.Lits.{sorted_clause, InRange};

use clause_store::{ClauseList, Lit};
use edge::NoMemory;

/// One more clause, whose number is not needed.
pub fn add(clauses: &mut ClauseList, lits: &[Lit]) -> Result<(), NoMemory>
    requires in_range { InRange clauses.old.vars lits.now }
    ensures vars { clauses.new.vars ≡ clauses.old.vars }
    ensures ok { OnOk result (clauses.new.list ≡ clauses.old.list ++ sorted_clause lits.now ∷ []) }
    ensures err { OnErr result (clauses.new.list ≡ clauses.old.list) }
{
    clauses.add(lits)?;
    Ok(())
}

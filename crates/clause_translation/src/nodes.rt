//! The clauses of one node, over a fresh variable that stands for it.

ghost use Rattle.std.specs.Prelude.{◌≡◌, ◌+◌, ◌<◌, ◌++◌, IfOk, OnOk, OnErr, map};
ghost use Rattle.clause_store.specs.Lits.{positive_lit, sorted_clause, IsWithin};
ghost use Rattle.clause_store.specs.Grew.{Grew};
ghost use Rattle.clause_store.specs.Limits.{var_limit};
ghost use Rattle.clause_translation.specs.Definition.{top_clauses, bottom_clauses, atom_clauses};
ghost use Rattle.clause_translation.specs.Definition.{not_clauses, and_clauses, or_clauses};
ghost use Rattle.clause_translation.specs.Definition.{implies_clauses, iff_clauses};

use clause_store::{ClauseList, Lit};
use edge::NoMemory;

/// A node that is true.
pub fn top_node(clauses: &mut ClauseList) -> Result<Lit, NoMemory>
    requires room { clauses.old.vars < var_limit }
    ensures node { IfOk result (λ v. v ≡ positive_lit (clauses.old.vars + 1)) }
    ensures vars { OnOk result (clauses.new.vars ≡ clauses.old.vars + 1) }
    ensures list { OnOk result (clauses.new.list ≡ clauses.old.list ++ map sorted_clause
        (top_clauses (positive_lit (clauses.old.vars + 1)))) }
    ensures err { OnErr result (Grew clauses.old clauses.new
        (top_clauses (positive_lit (clauses.old.vars + 1)))) }
{
    let node = clauses.fresh();
    clauses.add(&[node])?;
    Ok(node)
}

/// A node that is false.
pub fn bottom_node(clauses: &mut ClauseList) -> Result<Lit, NoMemory>
    requires room { clauses.old.vars < var_limit }
    ensures node { IfOk result (λ v. v ≡ positive_lit (clauses.old.vars + 1)) }
    ensures vars { OnOk result (clauses.new.vars ≡ clauses.old.vars + 1) }
    ensures list { OnOk result (clauses.new.list ≡ clauses.old.list ++ map sorted_clause
        (bottom_clauses (positive_lit (clauses.old.vars + 1)))) }
    ensures err { OnErr result (Grew clauses.old clauses.new
        (bottom_clauses (positive_lit (clauses.old.vars + 1)))) }
{
    let node = clauses.fresh();
    clauses.add(&[node.negated()])?;
    Ok(node)
}

/// A node with the value of a literal.
#[tactic(auto, using(clause_store::proofs::Grows::grew_none, clause_store::proofs::Grows::grew_one))]
pub fn atom_node(clauses: &mut ClauseList, atom: Lit) -> Result<Lit, NoMemory>
    requires room { clauses.old.vars < var_limit }
    requires atom { IsWithin clauses.old.vars atom }
    ensures node { IfOk result (λ v. v ≡ positive_lit (clauses.old.vars + 1)) }
    ensures vars { OnOk result (clauses.new.vars ≡ clauses.old.vars + 1) }
    ensures list { OnOk result (clauses.new.list ≡ clauses.old.list ++ map sorted_clause
        (atom_clauses (positive_lit (clauses.old.vars + 1)) atom)) }
    ensures err { OnErr result (Grew clauses.old clauses.new
        (atom_clauses (positive_lit (clauses.old.vars + 1)) atom)) }
{
    let node = clauses.fresh();
    clauses.add(&[node.negated(), atom])?;
    clauses.add(&[node, atom.negated()])?;
    Ok(node)
}

/// A negation.
#[tactic(auto, using(clause_store::proofs::Grows::grew_none, clause_store::proofs::Grows::grew_one))]
pub fn not_node(clauses: &mut ClauseList, part: Lit) -> Result<Lit, NoMemory>
    requires room { clauses.old.vars < var_limit }
    requires part { IsWithin clauses.old.vars part }
    ensures node { IfOk result (λ v. v ≡ positive_lit (clauses.old.vars + 1)) }
    ensures vars { OnOk result (clauses.new.vars ≡ clauses.old.vars + 1) }
    ensures list { OnOk result (clauses.new.list ≡ clauses.old.list ++ map sorted_clause
        (not_clauses (positive_lit (clauses.old.vars + 1)) part)) }
    ensures err { OnErr result (Grew clauses.old clauses.new
        (not_clauses (positive_lit (clauses.old.vars + 1)) part)) }
{
    let node = clauses.fresh();
    clauses.add(&[node.negated(), part.negated()])?;
    clauses.add(&[node, part])?;
    Ok(node)
}

/// A conjunction.
#[tactic(auto, using(clause_store::proofs::Grows::grew_none, clause_store::proofs::Grows::grew_one, clause_store::proofs::Grows::grew_two))]
pub fn and_node(clauses: &mut ClauseList, left: Lit, right: Lit) -> Result<Lit, NoMemory>
    requires room { clauses.old.vars < var_limit }
    requires left { IsWithin clauses.old.vars left }
    requires right { IsWithin clauses.old.vars right }
    ensures node { IfOk result (λ v. v ≡ positive_lit (clauses.old.vars + 1)) }
    ensures vars { OnOk result (clauses.new.vars ≡ clauses.old.vars + 1) }
    ensures list { OnOk result (clauses.new.list ≡ clauses.old.list ++ map sorted_clause
        (and_clauses (positive_lit (clauses.old.vars + 1)) left right)) }
    ensures err { OnErr result (Grew clauses.old clauses.new
        (and_clauses (positive_lit (clauses.old.vars + 1)) left right)) }
{
    let node = clauses.fresh();
    clauses.add(&[node.negated(), left])?;
    clauses.add(&[node.negated(), right])?;
    clauses.add(&[node, left.negated(), right.negated()])?;
    Ok(node)
}

/// A disjunction.
#[tactic(auto, using(clause_store::proofs::Grows::grew_none, clause_store::proofs::Grows::grew_one, clause_store::proofs::Grows::grew_two))]
pub fn or_node(clauses: &mut ClauseList, left: Lit, right: Lit) -> Result<Lit, NoMemory>
    requires room { clauses.old.vars < var_limit }
    requires left { IsWithin clauses.old.vars left }
    requires right { IsWithin clauses.old.vars right }
    ensures node { IfOk result (λ v. v ≡ positive_lit (clauses.old.vars + 1)) }
    ensures vars { OnOk result (clauses.new.vars ≡ clauses.old.vars + 1) }
    ensures list { OnOk result (clauses.new.list ≡ clauses.old.list ++ map sorted_clause
        (or_clauses (positive_lit (clauses.old.vars + 1)) left right)) }
    ensures err { OnErr result (Grew clauses.old clauses.new
        (or_clauses (positive_lit (clauses.old.vars + 1)) left right)) }
{
    let node = clauses.fresh();
    clauses.add(&[node, left.negated()])?;
    clauses.add(&[node, right.negated()])?;
    clauses.add(&[node.negated(), left, right])?;
    Ok(node)
}

/// An implication.
#[tactic(auto, using(clause_store::proofs::Grows::grew_none, clause_store::proofs::Grows::grew_one, clause_store::proofs::Grows::grew_two))]
pub fn implies_node(clauses: &mut ClauseList, left: Lit, right: Lit) -> Result<Lit, NoMemory>
    requires room { clauses.old.vars < var_limit }
    requires left { IsWithin clauses.old.vars left }
    requires right { IsWithin clauses.old.vars right }
    ensures node { IfOk result (λ v. v ≡ positive_lit (clauses.old.vars + 1)) }
    ensures vars { OnOk result (clauses.new.vars ≡ clauses.old.vars + 1) }
    ensures list { OnOk result (clauses.new.list ≡ clauses.old.list ++ map sorted_clause
        (implies_clauses (positive_lit (clauses.old.vars + 1)) left right)) }
    ensures err { OnErr result (Grew clauses.old clauses.new
        (implies_clauses (positive_lit (clauses.old.vars + 1)) left right)) }
{
    let node = clauses.fresh();
    clauses.add(&[node, left])?;
    clauses.add(&[node, right.negated()])?;
    clauses.add(&[node.negated(), left.negated(), right])?;
    Ok(node)
}

/// An equivalence.
#[tactic(auto, using(clause_store::proofs::Grows::grew_none, clause_store::proofs::Grows::grew_one, clause_store::proofs::Grows::grew_two, clause_store::proofs::Grows::grew_three))]
pub fn iff_node(clauses: &mut ClauseList, left: Lit, right: Lit) -> Result<Lit, NoMemory>
    requires room { clauses.old.vars < var_limit }
    requires left { IsWithin clauses.old.vars left }
    requires right { IsWithin clauses.old.vars right }
    ensures node { IfOk result (λ v. v ≡ positive_lit (clauses.old.vars + 1)) }
    ensures vars { OnOk result (clauses.new.vars ≡ clauses.old.vars + 1) }
    ensures list { OnOk result (clauses.new.list ≡ clauses.old.list ++ map sorted_clause
        (iff_clauses (positive_lit (clauses.old.vars + 1)) left right)) }
    ensures err { OnErr result (Grew clauses.old clauses.new
        (iff_clauses (positive_lit (clauses.old.vars + 1)) left right)) }
{
    let node = clauses.fresh();
    clauses.add(&[node.negated(), left.negated(), right])?;
    clauses.add(&[node.negated(), left, right.negated()])?;
    clauses.add(&[node, left, right])?;
    clauses.add(&[node, left.negated(), right.negated()])?;
    Ok(node)
}

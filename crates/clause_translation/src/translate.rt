//! From a formula to clauses.

ghost use Rattle.std.specs.Prelude.{◌≡◌, ◌+◌, ◌≤◌, ◌++◌, IfOk, OnOk, OnErr, length, map};
ghost use Rattle.clause_store.specs.Lits.{positive_lit, sorted_clause, InRange};
ghost use Rattle.clause_store.specs.Grew.{Grew};
ghost use Rattle.clause_store.specs.Limits.{var_limit};
ghost use Rattle.formulas.specs.Formulas.{nodes_of, width_of};
ghost use Rattle.clause_translation.specs.Definition.{definition, Defines};

use crate::nodes::{
    and_node, atom_node, bottom_node, iff_node, implies_node, not_node, or_node, top_node,
};
use clause_store::{ClauseList, Lit};
use edge::NoMemory;
use formulas::Formula;

/// The nodes of a formula, children first, the left before the right.
fn define_nodes(clauses: &mut ClauseList, formula: &Formula, atoms: &[Lit]) -> Result<Lit, NoMemory>
    requires room { clauses.old.vars + nodes_of formula.now ≤ var_limit }
    requires known { width_of formula.now ≤ length atoms.now }
    requires in_range { InRange clauses.old.vars atoms.now }
    ensures root { IfOk result
        (λ r. r ≡ positive_lit (definition atoms.now formula.now clauses.old.vars).root) }
    ensures vars { OnOk result
        (clauses.new.vars ≡ (definition atoms.now formula.now clauses.old.vars).root) }
    ensures list { OnOk result (clauses.new.list ≡ clauses.old.list ++ map sorted_clause
        (definition atoms.now formula.now clauses.old.vars).clauses) }
    ensures err { OnErr result (Grew clauses.old clauses.new
        (definition atoms.now formula.now clauses.old.vars).clauses) }
{
    match formula {
        Formula::Top => top_node(clauses),
        Formula::Bottom => bottom_node(clauses),
        Formula::Atom(k) => atom_node(clauses, atoms[*k as usize]),
        Formula::Not(part) => {
            let part = define_nodes(clauses, part.get(), atoms)?;
            not_node(clauses, part)
        }
        Formula::And(left, right) => {
            let left = define_nodes(clauses, left.get(), atoms)?;
            let right = define_nodes(clauses, right.get(), atoms)?;
            and_node(clauses, left, right)
        }
        Formula::Or(left, right) => {
            let left = define_nodes(clauses, left.get(), atoms)?;
            let right = define_nodes(clauses, right.get(), atoms)?;
            or_node(clauses, left, right)
        }
        Formula::Implies(left, right) => {
            let left = define_nodes(clauses, left.get(), atoms)?;
            let right = define_nodes(clauses, right.get(), atoms)?;
            implies_node(clauses, left, right)
        }
        Formula::Iff(left, right) => {
            let left = define_nodes(clauses, left.get(), atoms)?;
            let right = define_nodes(clauses, right.get(), atoms)?;
            iff_node(clauses, left, right)
        }
    }
}

/// Defines the formula: appends clauses over fresh variables, one for each node, children first,
/// and answers the root, the last of these variables. Atom `k` of the formula has the literal
/// `atoms[k]`. After `NoMemory` the list has grown by some variables and some of these clauses,
/// from the first on.
pub fn define(clauses: &mut ClauseList, formula: &Formula, atoms: &[Lit]) -> Result<Lit, NoMemory>
    requires room { clauses.old.vars + nodes_of formula.now ≤ var_limit }
    requires known { width_of formula.now ≤ length atoms.now }
    requires in_range { InRange clauses.old.vars atoms.now }
    ensures root { IfOk result
        (λ r. r ≡ positive_lit (definition atoms.now formula.now clauses.old.vars).root) }
    ensures vars { OnOk result
        (clauses.new.vars ≡ (definition atoms.now formula.now clauses.old.vars).root) }
    ensures list { OnOk result (clauses.new.list ≡ clauses.old.list ++ map sorted_clause
        (definition atoms.now formula.now clauses.old.vars).clauses) }
    ensures err { OnErr result (Grew clauses.old clauses.new
        (definition atoms.now formula.now clauses.old.vars).clauses) }

    // What the clauses mean.
    ensures fresh { (definition atoms.now formula.now clauses.old.vars).root ≡
        clauses.old.vars + nodes_of formula.now }
    ensures defines { Defines clauses.old.vars atoms.now formula.now
        (definition atoms.now formula.now clauses.old.vars) }
{
    define_nodes(clauses, formula, atoms)
}

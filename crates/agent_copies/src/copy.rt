//! The copy of an agent.

ghost use Rattle.std.specs.Prelude.{◌≡◌, ◌+◌, ◌≤◌, ◌++◌, IfOk, OnOk, OnErr, length, map};
ghost use Rattle.clause_store.specs.Lits.{positive_lit, sorted_clause, InRange};
ghost use Rattle.clause_store.specs.Grew.{Grew};
ghost use Rattle.clause_store.specs.Limits.{var_limit};
ghost use Rattle.formulas.specs.Formulas.{nodes_of, width_of};
ghost use Rattle.formulas.specs.Limits.{valuation_limit};
ghost use Rattle.agent_copies.specs.Copy.{copy_due, IsCopy};
ghost use Rattle.agent_copies.specs.Limits.{counter_room};

use crate::counted::Counted;
use clause_store::{ClauseList, Lit};
use clause_translation::define;
use edge::NoMemory;
use formulas::Formula;
use merge_model::Sequence;
use std::alloc::Global;
use totalizer::Unary;

/// The copy of an agent in a list of clauses: its own literals, the root of its base over them, and
/// the counter of the distance from the shared literals to the own ones.
#[derive(Drop)]
pub struct AgentCopy {
    /// The own literals, one for each shared one, in order.
    pub own: Sequence<Lit>,
    /// True exactly where the own literals satisfy the base.
    pub root: Lit,
    /// Counts the distance from the shared literals to the own ones.
    pub away: Unary,
}

/// Copies an agent: appends own literals, one for each of the 1 to 64 shared ones, the clauses of
/// its base over them, and the clauses of the counter of the distance. After `NoMemory` the list
/// has grown by some variables and some of these clauses, from the first on.
pub fn copy_agent<D: Counted>(
    alloc: Global,
    clauses: &mut ClauseList,
    shared: &[Lit],
    base: &Formula,
    distance: &D,
) -> Result<AgentCopy, NoMemory>
    requires some { 1 ≤ length shared.now }
    requires few { length shared.now ≤ valuation_limit }
    requires shared_in { InRange clauses.old.vars shared.now }
    requires known { width_of base.now ≤ length shared.now }
    requires room { clauses.old.vars + length shared.now + nodes_of base.now + counter_room ≤
        var_limit }
    ensures own { IfOk result
        (λ copy. copy.own ≡ (copy_due (D.due distance.now) clauses.old.vars shared.now
        base.now).own) }
    ensures root { IfOk result (λ copy. copy.root ≡ positive_lit
        (copy_due (D.due distance.now) clauses.old.vars shared.now base.now).root) }
    ensures away { IfOk result
        (λ copy. copy.away ≡ (copy_due (D.due distance.now) clauses.old.vars shared.now
        base.now).away) }
    ensures vars { OnOk result
        (clauses.new.vars ≡ (copy_due (D.due distance.now) clauses.old.vars shared.now
        base.now).vars) }
    ensures list { OnOk result (clauses.new.list ≡ clauses.old.list ++ map sorted_clause
        (copy_due (D.due distance.now) clauses.old.vars shared.now base.now).clauses) }
    ensures err { OnErr result (Grew clauses.old clauses.new
        (copy_due (D.due distance.now) clauses.old.vars shared.now base.now).clauses) }

    // What the clauses mean.
    ensures copies { IsCopy clauses.old.vars shared.now base.now (D.dist distance.now)
        (D.most distance.now (length shared.now)) (copy_due
        (D.due distance.now) clauses.old.vars shared.now base.now) }
{
    let own = clauses.fresh_lits(shared.len())?;
    let root = define(clauses, base, &own)?;
    let away = distance.counter(alloc, clauses, shared, &own)?;
    let own = Sequence::from_vec(own);
    Ok(AgentCopy { own, root, away })
}

//! Difference variables.

ghost use Rattle.std.specs.Prelude.{◌≡◌, ◌+◌, ◌≤◌, ◌++◌, OnOk, OnErr, length, map};
ghost use Rattle.clause_store.specs.Lits.{sorted_clause, IsWithin, InRange};
ghost use Rattle.clause_store.specs.Grew.{Grew};
ghost use Rattle.clause_store.specs.Limits.{var_limit};
ghost use Rattle.totalizer.specs.Joined.{joined_blocks};
ghost use Rattle.agent_copies.specs.Differences.{difference_clauses, difference_at};

use clause_store::{ClauseList, Lit};
use edge::NoMemory;

/// The clauses of one difference.
#[tactic(auto, using(clause_store::proofs::Grows::grew_none, clause_store::proofs::Grows::grew_one, clause_store::proofs::Grows::grew_two, clause_store::proofs::Grows::grew_three))]
fn add_difference(
    clauses: &mut ClauseList,
    difference: Lit,
    left: Lit,
    right: Lit,
) -> Result<(), NoMemory>
    requires difference { IsWithin clauses.old.vars difference }
    requires left { IsWithin clauses.old.vars left }
    requires right { IsWithin clauses.old.vars right }
    ensures vars { clauses.new.vars ≡ clauses.old.vars }
    ensures list { OnOk result (clauses.new.list ≡ clauses.old.list ++ map sorted_clause
        (difference_clauses difference left right)) }
    ensures err { OnErr result (Grew clauses.old clauses.new
        (difference_clauses difference left right)) }
{
    clauses.add(&[difference.negated(), left, right])?;
    clauses.add(&[difference.negated(), left.negated(), right.negated()])?;
    clauses.add(&[difference, left.negated(), right])?;
    clauses.add(&[difference, left, right.negated()])?;
    Ok(())
}

/// The clauses of the variables after `base`, one for each place, each true exactly where the
/// literals there differ.
pub fn add_differences(
    clauses: &mut ClauseList,
    base: u32,
    shared: &[Lit],
    own: &[Lit],
) -> Result<(), NoMemory>
    requires lengths { length shared.now ≡ length own.now }
    requires room { base + length shared.now ≤ clauses.old.vars }
    requires few { clauses.old.vars ≤ var_limit }
    requires shared_in { InRange clauses.old.vars shared.now }
    requires own_in { InRange clauses.old.vars own.now }
    ensures vars { clauses.new.vars ≡ clauses.old.vars }
    ensures list { OnOk result (clauses.new.list ≡ clauses.old.list ++ map sorted_clause
        (joined_blocks (difference_at base shared.now own.now) (length shared.now))) }
    ensures err { OnErr result (Grew clauses.old clauses.new
        (joined_blocks (difference_at base shared.now own.now) (length shared.now))) }
{
    for i in 0..shared.len() {
        let difference = Lit::positive(base + i as u32 + 1);
        add_difference(clauses, difference, shared[i], own[i])?;
    }
    Ok(())
}

//! The clauses of small formulas, with 0 before each.

use crate::numbers::push_clauses;
use clause_store::{ClauseList, Lit};
use clause_translation::define;
use edge::NoMemory;
use formulas::Formula;
use std::alloc::Global;
use std::test::Fail;

/// Truth over no atom.
fn truth(alloc: Global) -> Result<(Lit, Vec<i64>), NoMemory> {
    let mut clauses = ClauseList::new(alloc);
    let root = define(&mut clauses, &Formula::Top, &[])?;
    let mut numbers = Vec::new(alloc);
    push_clauses(&mut numbers, &clauses)?;
    Ok((root, numbers))
}

/// The negation of the only atom.
fn negated_atom(alloc: Global) -> Result<(Lit, Vec<i64>), NoMemory> {
    let mut clauses = ClauseList::new(alloc);
    let atom = clauses.fresh();
    let formula = Formula::negation(alloc, Formula::Atom(0))?;
    let root = define(&mut clauses, &formula, &[atom])?;
    let mut numbers = Vec::new(alloc);
    push_clauses(&mut numbers, &clauses)?;
    Ok((root, numbers))
}

#[test]
fn truth_is_one_clause(rt: HostRuntime) -> Result<(), Fail> {
    let (root, clauses) = truth(rt.alloc())?;
    assert_eq!(rt; root, Lit::positive(1));
    assert_eq!(rt; clauses.as_slice(), [0, 1].as_slice());
    Ok(())
}

#[test]
fn a_negated_atom_has_two_nodes(rt: HostRuntime) -> Result<(), Fail> {
    let (root, clauses) = negated_atom(rt.alloc())?;
    assert_eq!(rt; root, Lit::positive(3));
    assert_eq!(rt;
        clauses.as_slice(),
        [0, 1, -2, 0, -1, 2, 0, -2, -3, 0, 2, 3].as_slice()
    );
    Ok(())
}

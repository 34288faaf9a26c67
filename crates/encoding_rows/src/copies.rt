//! The copies of an agent over one atom.

use crate::numbers::{push_clauses, push_copy};
use agent_copies::{Counted, copy_agent};
use clause_store::ClauseList;
use edge::NoMemory;
use formulas::Formula;
use merge_model::{Drastic, Hamming};
use std::alloc::Global;
use std::test::Fail;

/// The own literal, the root, the outputs of the distance and then the clauses, with 0 before each.
fn copied<D: Counted>(alloc: Global, distance: &D) -> Result<Vec<i64>, NoMemory> {
    let mut clauses = ClauseList::new(alloc);
    let shared = [clauses.fresh()];
    let copy = copy_agent(alloc, &mut clauses, &shared, &Formula::Atom(0), distance)?;
    let mut numbers = Vec::new(alloc);
    push_copy(&mut numbers, &copy)?;
    push_clauses(&mut numbers, &clauses)?;
    Ok(numbers)
}

/// The base over the own literal, and the difference of the two literals, which is counted.
const HAMMING: [i64; 25] = [
    2, 3, 4, 0, 2, -3, 0, -2, 3, 0, 1, 2, -4, 0, -1, -2, -4, 0, -1, 2, 4, 0, 1, -2, 4,
];

/// The same, and that some difference is there.
const DRASTIC: [i64; 31] = [
    2, 3, 5, 0, 2, -3, 0, -2, 3, 0, 1, 2, -4, 0, -1, -2, -4, 0, -1, 2, 4, 0, 1, -2, 4, 0, -4, 5, 0,
    4, -5,
];

#[test]
fn the_hamming_copy_of_an_atom_counts_one_difference(rt: HostRuntime) -> Result<(), Fail> {
    let numbers = copied(rt.alloc(), &Hamming)?;
    assert_eq!(rt; numbers.as_slice(), HAMMING.as_slice());
    Ok(())
}

#[test]
fn the_drastic_copy_of_an_atom_asks_for_some_difference(rt: HostRuntime) -> Result<(), Fail> {
    let numbers = copied(rt.alloc(), &Drastic)?;
    assert_eq!(rt; numbers.as_slice(), DRASTIC.as_slice());
    Ok(())
}

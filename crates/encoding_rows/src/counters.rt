//! The variables, outputs and clauses of small counters, with 0 before each clause.

use crate::numbers::counted;
use clause_store::{ClauseList, Lit};
use edge::NoMemory;
use std::alloc::Global;
use std::test::Fail;
use totalizer::{either, leaf, leaves, plus, total};

/// The literal that says that variables 1 and 2 are both true, and their sum.
fn sum_of_two(alloc: Global) -> Result<(Lit, Vec<i64>), NoMemory> {
    let mut clauses = ClauseList::new(alloc);
    let left = leaf(alloc, clauses.fresh().var)?;
    let right = leaf(alloc, clauses.fresh().var)?;
    let sum = plus(alloc, &mut clauses, &left, &right)?;
    Ok((sum.at_least(2), counted(alloc, &sum, &clauses)?))
}

/// The outputs of the total of variables 1 and 2, and the total.
fn total_of_two(alloc: Global) -> Result<(Vec<u32>, Vec<i64>), NoMemory> {
    let mut clauses = ClauseList::new(alloc);
    let vars = [clauses.fresh().var, clauses.fresh().var];
    let parts = leaves(alloc, &vars)?;
    let sum = total(alloc, &mut clauses, &parts)?;
    let numbers = counted(alloc, &sum, &clauses)?;
    Ok((sum.into_outputs(), numbers))
}

/// The total of variable 1 given twice.
fn total_of_one_twice(alloc: Global) -> Result<Vec<i64>, NoMemory> {
    let mut clauses = ClauseList::new(alloc);
    let part = leaf(alloc, clauses.fresh().var)?;
    let parts = [part.copy()?, part];
    let sum = total(alloc, &mut clauses, &parts)?;
    counted(alloc, &sum, &clauses)
}

/// How many outputs there are for whether variable 1 or 2 is true, and the counter of it.
fn either_of_two(alloc: Global) -> Result<(u32, Vec<i64>), NoMemory> {
    let mut clauses = ClauseList::new(alloc);
    let vars = [clauses.fresh().var, clauses.fresh().var];
    let some = either(alloc, &mut clauses, &vars)?;
    Ok((some.len(), counted(alloc, &some, &clauses)?))
}

const SUM: [i64; 23] = [
    4, 3, 4, 0, 1, 2, -3, 0, -2, 3, 0, 1, -4, 0, -1, 3, 0, 2, -4, 0, -1, -2, 4,
];

#[test]
fn a_sum_of_two_has_six_clauses(rt: HostRuntime) -> Result<(), Fail> {
    let alloc = rt.alloc();
    let (both, sum) = sum_of_two(alloc)?;
    assert_eq!(rt; both, Lit::positive(4));
    assert_eq!(rt; sum.as_slice(), SUM.as_slice());
    let (outputs, total) = total_of_two(alloc)?;
    assert_eq!(rt; outputs.as_slice(), [3, 4].as_slice());
    assert_eq!(rt; total.as_slice(), SUM.as_slice());
    Ok(())
}

const TWICE: [i64; 21] = [
    3, 2, 3, 0, 1, -2, 0, -1, 2, 0, 1, -3, 0, -1, 2, 0, 1, -3, 0, -1, 3,
];

#[test]
fn a_part_given_twice_counts_twice(rt: HostRuntime) -> Result<(), Fail> {
    let twice = total_of_one_twice(rt.alloc())?;
    assert_eq!(rt; twice.as_slice(), TWICE.as_slice());
    Ok(())
}

const EITHER: [i64; 12] = [3, 3, 0, -1, 3, 0, -2, 3, 0, 1, 2, -3];

#[test]
fn either_of_two_has_three_clauses(rt: HostRuntime) -> Result<(), Fail> {
    let (count, either) = either_of_two(rt.alloc())?;
    assert_eq!(rt; count, 1);
    assert_eq!(rt; either.as_slice(), EITHER.as_slice());
    Ok(())
}

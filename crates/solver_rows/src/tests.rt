//! What the solver answers to worked questions by scanning and by watched literals, and that each
//! step of its logs follows.
use crate::questions::{
    claimed_of_the_empty_clause, found_under_third, refuting_assumptions, spent_on_all_of_two,
};
use std::test::Fail;
use watch_lists::{Scan, Watches};

#[test]
fn assumptions_are_refuted_by_their_negations(rt: HostRuntime) -> Result<(), Fail> {
    let by_scan = refuting_assumptions::<Scan>(rt.alloc())?;
    let by_watches = refuting_assumptions::<Watches>(rt.alloc())?;
    assert!(rt; by_scan.is_some() && by_watches.is_some());
    Ok(())
}

#[test]
fn an_assignment_is_found_under_an_assumption(rt: HostRuntime) -> Result<(), Fail> {
    let by_scan = found_under_third::<Scan>(rt.alloc())?;
    let by_watches = found_under_third::<Watches>(rt.alloc())?;
    assert_eq!(rt;
        (by_scan, by_watches),
        ((Some(false), 14), (Some(false), 14))
    );
    Ok(())
}

#[test]
fn what_is_never_true_is_refuted_after_a_spent_budget(rt: HostRuntime) -> Result<(), Fail> {
    let by_scan = spent_on_all_of_two::<Scan>(rt.alloc())?;
    let by_watches = spent_on_all_of_two::<Watches>(rt.alloc())?;
    let expected = (Some(4), true, Some(5));
    assert_eq!(rt; (by_scan, by_watches), (expected, expected));
    Ok(())
}

#[test]
fn an_empty_clause_is_claimed_as_it_stands(rt: HostRuntime) -> Result<(), Fail> {
    let by_scan = claimed_of_the_empty_clause::<Scan>(rt.alloc())?;
    let by_watches = claimed_of_the_empty_clause::<Watches>(rt.alloc())?;
    let expected = (Some(1), true, true);
    assert_eq!(rt; (by_scan, by_watches), (expected, expected));
    Ok(())
}

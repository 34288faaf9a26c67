//! Steps that are read, written and judged.
use crate::questions::fourteen_clauses;
use clause_store::{Clause, ClauseList, Lit};
use derivation_log::{Chain, Link, Step, StepKind, StepReadStop, read_step, write_step};
use edge::NoMemory;
use log_checker::{StepStop, check_step};
use std::alloc::Global;
use std::test::Fail;

fn has_parts(step: &Step, kind: StepKind, clause: &[Lit], first: u64, chain: &[Link]) -> bool {
    step.kind == kind
        && step.clause.lits() == clause
        && step.first == first
        && step.chain.as_slice() == chain
}

/// Whether a line is read as step 14 with these parts.
fn is_read_as(
    alloc: Global,
    line: &[u8],
    kind: StepKind,
    clause: &[Lit],
    first: u64,
    chain: &[Link],
) -> Result<bool, StepReadStop> {
    let (number, step) = read_step(alloc, line)?;
    Ok(number == 14 && has_parts(&step, kind, clause, first, chain))
}

#[test]
fn step_lines_are_read(rt: HostRuntime) -> Result<(), Fail> {
    let alloc = rt.alloc();
    let line = b"step 14 claimed 1 -7 8 0 13 -6 8";
    let clause = [Lit::positive(1), Lit::negative(7), Lit::positive(8)];
    let link = Link {
        pivot: Lit::negative(6),
        number: 8,
    };
    let is_claimed = is_read_as(alloc, line, StepKind::Claimed, &clause, 13, &[link])?;
    let line = b"step 14 learned 0 3";
    let is_learned = is_read_as(alloc, line, StepKind::Learned, &[], 3, &[])?;
    assert_eq!(rt; (is_claimed, is_learned), (true, true));
    Ok(())
}

fn stop_of(alloc: Global, line: &[u8]) -> Option<StepReadStop> {
    read_step(alloc, line).err()
}

#[test]
fn other_lines_are_refused(rt: HostRuntime) {
    let alloc = rt.alloc();
    let stops = [
        stop_of(alloc, b"step 14 claimed 1 0"),
        stop_of(alloc, b"step 014 claimed 0 1"),
        stop_of(alloc, b"step 14 claimed -7 1 0 13"),
        stop_of(alloc, b"step 14 claimed 4294967296 1 0 13"),
    ];
    let expected = [
        Some(StepReadStop::Form),
        Some(StepReadStop::Form),
        Some(StepReadStop::Unsorted),
        Some(StepReadStop::TooBig),
    ];
    assert_eq!(rt; stops, expected);
}

/// Writes a step from clause 13 by no link.
fn push_step(alloc: Global, text: &mut Vec<u8>) -> Result<(), NoMemory> {
    let step = Step {
        kind: StepKind::Learned,
        clause: Clause::from_lits(alloc, &[Lit::positive(8), Lit::negative(7)])?,
        first: 13,
        chain: Chain::from_vec(Vec::new(alloc)),
    };
    write_step(14, &step, text)
}

#[test]
fn a_step_is_written_as_its_line(rt: HostRuntime) -> Result<(), Fail> {
    let mut text = Vec::new(rt.alloc());
    push_step(rt.alloc(), &mut text)?;
    assert_eq!(rt; text.as_slice(), b"step 14 learned -7 8 0 13\n".as_slice());
    Ok(())
}

/// Why the step of a line does not follow from the known clauses.
fn refusal_of(
    alloc: Global,
    known: &ClauseList,
    line: &[u8],
) -> Result<Option<StepStop>, StepReadStop> {
    let (_number, step) = read_step(alloc, line)?;
    Ok(check_step(alloc, known, &step).err())
}

fn refusals_by(alloc: Global, known: &ClauseList) -> Result<[Option<StepStop>; 5], StepReadStop> {
    Ok([
        refusal_of(alloc, known, b"step 14 claimed 1 -7 8 0 13 -6 8")?,
        refusal_of(alloc, known, b"step 14 claimed 1 -7 8 0 13 -6 14")?,
        refusal_of(alloc, known, b"step 14 claimed 1 -7 8 0 13 6 8")?,
        refusal_of(alloc, known, b"step 14 claimed 1 -7 8 0 13 -6 9")?,
        refusal_of(alloc, known, b"step 14 claimed 1 8 0 13 -6 8")?,
    ])
}

/// The answers for steps from clause 13 of the fourteen by one link.
fn refusals(alloc: Global) -> Result<[Option<StepStop>; 5], StepReadStop> {
    let known = fourteen_clauses(alloc)?;
    refusals_by(alloc, &known)
}

#[test]
fn a_step_is_judged(rt: HostRuntime) -> Result<(), Fail> {
    let expected = [
        None,
        Some(StepStop::NoSuchClause),
        Some(StepStop::NoPivot(0)),
        Some(StepStop::NoPivot(0)),
        Some(StepStop::OtherClause),
    ];
    assert_eq!(rt; refusals(rt.alloc())?, expected);
    Ok(())
}

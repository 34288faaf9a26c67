//! What trimming leaves of worked logs.
use crate::logs::{has_step, trimmed, trimmed_twice};
use derivation_log::{StepReadStop, TrimmedLog};
use std::alloc::Global;
use std::test::Fail;

/// The last of three steps uses no other.
const WITH_LAST_ALONE: [&[u8]; 3] = [
    b"step 14 claimed 1 -7 8 0 13 -6 8",
    b"step 15 claimed -3 -7 8 0 14 1 1 2 2",
    b"step 16 claimed -3 5 0 7 4 4 1 1 2 2",
];

/// That step where it is left alone.
const LAST_ALONE: [&[u8]; 1] = [b"step 14 claimed -3 5 0 7 4 4 1 1 2 2"];

/// The last of three steps uses the second.
const WITH_FIRST_ALONE: [&[u8]; 3] = [
    b"step 14 claimed -3 5 0 7 4 4 1 1 2 2",
    b"step 15 claimed 1 -7 8 0 13 -6 8",
    b"step 16 claimed -3 -7 8 0 15 1 1 2 2",
];

/// These two where they are left.
const LAST_TWO: [&[u8]; 2] = [
    b"step 14 claimed 1 -7 8 0 13 -6 8",
    b"step 15 claimed -3 -7 8 0 14 1 1 2 2",
];

/// Whether the named steps have these numbers now, and these lines spell the steps that are left.
fn has_left(
    alloc: Global,
    left: &TrimmedLog,
    numbers: &[u64],
    lines: &[&[u8]],
) -> Result<bool, StepReadStop> {
    let log = &left.derivations;
    if left.numbers.as_slice() != numbers || log.known().len() != 14 + lines.len() as u64 {
        return Ok(false);
    }
    for line in lines {
        if !has_step(alloc, log, line)? {
            return Ok(false);
        }
    }
    Ok(true)
}

fn leaves_last(alloc: Global) -> Result<bool, Fail> {
    let left = trimmed(alloc, WITH_LAST_ALONE)?;
    Ok(has_left(alloc, &left, &[14], &LAST_ALONE)?)
}

fn leaves_last_once(alloc: Global) -> Result<bool, Fail> {
    let left = trimmed_twice(alloc, WITH_LAST_ALONE)?;
    Ok(has_left(alloc, &left, &[14, 14], &LAST_ALONE)?)
}

fn leaves_last_two(alloc: Global) -> Result<bool, Fail> {
    let left = trimmed(alloc, WITH_FIRST_ALONE)?;
    Ok(has_left(alloc, &left, &[15], &LAST_TWO)?)
}

#[test]
fn a_step_that_uses_no_other_is_left_alone(rt: HostRuntime) -> Result<(), Fail> {
    assert!(rt; leaves_last(rt.alloc())?);
    Ok(())
}

#[test]
fn a_step_that_is_named_twice_is_left_once(rt: HostRuntime) -> Result<(), Fail> {
    assert!(rt; leaves_last_once(rt.alloc())?);
    Ok(())
}

#[test]
fn what_a_step_uses_is_left_with_it(rt: HostRuntime) -> Result<(), Fail> {
    assert!(rt; leaves_last_two(rt.alloc())?);
    Ok(())
}

//! Logs over fourteen main clauses, made from step lines.
ghost use Rattle.std.specs.Prelude.{◌≡◌, ◌<◌, ◌≤◌, ◌&&◌, nat_le, OnOk, IfOk, IsTrue, length};
ghost use Rattle.std.specs.List.{list_all};
ghost use Rattle.clause_store.specs.Lits.{InRange};
ghost use Rattle.derivation_log.specs.Logs.{known_of, Follows, IsSound};

use crate::questions::fourteen_clauses;
use clause_store::Lit;
use derivation_log::{Derivations, Step, StepReadStop, TrimmedLog, read_step, trim};
use edge::NoMemory;
use log_checker::check_step;
use std::alloc::Global;
use std::test::Fail;

fn is_within(vars: u32, lit: Lit) -> bool
    ensures { result ≡ (nat_le 1 lit.var && nat_le lit.var vars) }
{
    1 <= lit.var && lit.var <= vars
}

/// Whether each literal is of one of so many variables.
fn are_within(vars: u32, lits: &[Lit]) -> bool
    ensures { result ≡ list_all (λ lit. nat_le 1 lit.var && nat_le lit.var vars) lits.now }
{
    for lit in lits {
        if !is_within(vars, *lit) {
            return false;
        }
    }
    true
}

/// The log of no step.
fn no_step(alloc: Global) -> Result<Derivations, NoMemory>
    ensures { IfOk result (λ log. IsSound log.main log.steps) }
{
    Ok(Derivations::new(alloc, fourteen_clauses(alloc)?))
}

/// The step of a line, where it follows from the clauses of the log and has the next number.
fn judged(alloc: Global, log: &Derivations, line: &[u8]) -> Result<Step, Fail>
    ensures follows { IfOk result (λ step. Follows (known_of log.now) step) }
    ensures in_range { IfOk result (λ step. InRange log.now.vars step.clause) }
{
    let (number, step) = read_step(alloc, line)?;
    let known = log.known();
    if number != known.len() {
        return Err(Fail::new("a step has another number than the next"));
    }
    if !are_within(known.vars(), step.clause.lits()) {
        return Err(Fail::new("a step is out of range"));
    }
    check_step(alloc, known, &step)?;
    Ok(step)
}

/// Appends the step of a line.
fn append(alloc: Global, log: &mut Derivations, line: &[u8]) -> Result<(), Fail>
    requires { IsSound log.old.main log.old.steps }
    ensures { OnOk result (IsSound log.new.main log.new.steps) }
{
    let step = judged(alloc, log, line)?;
    let _number = log.append(step)?;
    Ok(())
}

/// The log of the steps of three lines.
fn log_of(alloc: Global, lines: [&[u8]; 3]) -> Result<Derivations, Fail>
    ensures { IfOk result (λ log. IsSound log.main log.steps) }
{
    let [first, second, third] = lines;
    let mut log = no_step(alloc)?;
    append(alloc, &mut log, first)?;
    append(alloc, &mut log, second)?;
    append(alloc, &mut log, third)?;
    Ok(log)
}

fn is_step(log: &Derivations, number: u64) -> bool
    ensures main { IsTrue result → length log.now.main ≤ number }
    ensures known { IsTrue result → number < length (known_of log.now) }
{
    log.main_len() <= number && number < log.known().len()
}

/// What is left of the log of three lines where its last step is needed.
pub fn trimmed(alloc: Global, lines: [&[u8]; 3]) -> Result<TrimmedLog, Fail> {
    let log = log_of(alloc, lines)?;
    if !is_step(&log, 16) {
        return Err(Fail::new("there is no step 16"));
    }
    Ok(trim(alloc, log, &[16])?)
}

/// The same where the step is named twice.
pub fn trimmed_twice(alloc: Global, lines: [&[u8]; 3]) -> Result<TrimmedLog, Fail> {
    let log = log_of(alloc, lines)?;
    if !is_step(&log, 16) {
        return Err(Fail::new("there is no step 16"));
    }
    Ok(trim(alloc, log, &[16, 16])?)
}

fn are_same(left: &Step, right: &Step) -> bool {
    left.kind == right.kind
        && left.clause.lits() == right.clause.lits()
        && left.first == right.first
        && left.chain.as_slice() == right.chain.as_slice()
}

/// Whether the log has this step under this number.
fn has_this_step(
    alloc: Global,
    log: &Derivations,
    number: u64,
    step: &Step,
) -> Result<bool, NoMemory> {
    if !is_step(log, number) {
        return Ok(false);
    }
    let kept = log.step(alloc, number)?;
    Ok(are_same(&kept, step))
}

/// Whether the log has the step of a line under the line's number.
pub fn has_step(alloc: Global, log: &Derivations, line: &[u8]) -> Result<bool, StepReadStop> {
    let (number, step) = read_step(alloc, line)?;
    Ok(has_this_step(alloc, log, number, &step)?)
}

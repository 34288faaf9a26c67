//! Worked questions to the solver over any propagator, with each step of its logs judged. A
//! function that holds a solver asks another about it, and ends at one place.
ghost use Rattle.std.specs.Prelude.{◌≡◌, ◌≢◌, ◌+◌, ◌≤◌, AllPairs, OnOk, IfOk};
ghost use Rattle.clause_store.specs.Lits.{InRange};
ghost use Rattle.clause_store.specs.Limits.{var_limit};

use cdcl_core::{Reply, Solver};
use clause_store::{ClauseList, Lit};
use derivation_log::{Derivations, StepKind};
use edge::NoMemory;
use log_checker::{check_step, refutes};
use std::alloc::Global;
use watch_lists::Propagator;

fn put(list: &mut ClauseList, lits: &[Lit]) -> Result<(), NoMemory>
    requires in_range { InRange list.old.vars lits.now }
    ensures { OnOk result (list.new.vars ≡ list.old.vars) }
{
    let _number = list.add(lits)?;
    Ok(())
}

/// Adds so many variables.
fn add_variables(list: &mut ClauseList, count: usize) -> Result<(), NoMemory>
    requires { list.old.vars + count ≤ var_limit }
    ensures { OnOk result (list.new.vars ≡ list.old.vars + count) }
{
    let _vars = list.fresh_vars(count)?;
    Ok(())
}

/// The variables 1, 2 and 4 are equal, and 3 and 5 are their opposite.
fn put_eight(list: &mut ClauseList) -> Result<(), NoMemory>
    requires { list.old.vars ≡ 8 }
    ensures { OnOk result (list.new.vars ≡ 8) }
{
    put(list, &[Lit::positive(1), Lit::negative(2)])?;
    put(list, &[Lit::negative(1), Lit::positive(2)])?;
    put(list, &[Lit::negative(2), Lit::negative(3)])?;
    put(list, &[Lit::positive(2), Lit::positive(3)])?;
    put(list, &[Lit::positive(1), Lit::negative(4)])?;
    put(list, &[Lit::negative(1), Lit::positive(4)])?;
    put(list, &[Lit::negative(4), Lit::negative(5)])?;
    put(list, &[Lit::positive(4), Lit::positive(5)])
}

/// The variables 6 and 7 are equal, and 8 is whether 1 and 6 differ.
fn put_six(list: &mut ClauseList) -> Result<(), NoMemory>
    requires { list.old.vars ≡ 8 }
    ensures { OnOk result (list.new.vars ≡ 8) }
{
    let (one, not_one) = (Lit::positive(1), Lit::negative(1));
    let (six, not_six) = (Lit::positive(6), Lit::negative(6));
    put(list, &[six, Lit::negative(7)])?;
    put(list, &[not_six, Lit::positive(7)])?;
    put(list, &[one, six, Lit::negative(8)])?;
    put(list, &[not_one, not_six, Lit::negative(8)])?;
    put(list, &[not_one, six, Lit::positive(8)])?;
    put(list, &[one, not_six, Lit::positive(8)])
}

fn put_fourteen(list: &mut ClauseList) -> Result<(), NoMemory>
    requires { list.old.vars ≡ 0 }
    ensures { OnOk result (list.new.vars ≡ 8) }
{
    add_variables(list, 8)?;
    put_eight(list)?;
    put_six(list)
}

/// The fourteen clauses of these over eight variables.
pub fn fourteen_clauses(alloc: Global) -> Result<ClauseList, NoMemory>
    ensures { IfOk result (λ list. list.vars ≡ 8) }
{
    let mut list = ClauseList::new(alloc);
    put_fourteen(&mut list)?;
    Ok(list)
}

fn put_all_of_two(list: &mut ClauseList) -> Result<(), NoMemory>
    requires { list.old.vars ≡ 0 }
{
    add_variables(list, 2)?;
    put(list, &[Lit::positive(1), Lit::positive(2)])?;
    put(list, &[Lit::negative(1), Lit::positive(2)])?;
    put(list, &[Lit::positive(1), Lit::negative(2)])?;
    put(list, &[Lit::negative(1), Lit::negative(2)])
}

/// The four clauses of two literals over two variables: no assignment makes all of them true.
fn all_of_two(alloc: Global) -> Result<ClauseList, NoMemory> {
    let mut list = ClauseList::new(alloc);
    put_all_of_two(&mut list)?;
    Ok(list)
}

/// The empty clause alone.
fn empty_clause(alloc: Global) -> Result<ClauseList, NoMemory> {
    let mut list = ClauseList::new(alloc);
    put(&mut list, &[])?;
    Ok(list)
}

/// Whether the number is of a step of this kind with so many literals.
fn is_step(log: &Derivations, number: u64, kind: StepKind, width: usize) -> bool {
    log.main_len() <= number
        && number < log.known().len()
        && log.kind(number) == kind
        && log.known().clause(number).len() == width
}

/// Whether the step of a number follows from the clauses before it.
fn is_accepted(
    alloc: Global,
    log: &Derivations,
    before: &ClauseList,
    number: u64,
) -> Result<bool, NoMemory> {
    if number < log.main_len() {
        return Ok(true);
    }
    if log.known().len() <= number {
        return Ok(false);
    }
    let step = log.step(alloc, number)?;
    Ok(check_step(alloc, before, &step).is_ok())
}

/// Whether each step of the log follows from the clauses before it, which are put into `before`.
fn are_accepted_after(
    alloc: Global,
    log: &Derivations,
    before: &mut ClauseList,
) -> Result<bool, NoMemory> {
    let known = log.known();
    for number in 0..known.len() {
        if before.vars() != known.vars() || !is_accepted(alloc, log, before, number)? {
            return Ok(false);
        }
        put(before, known.clause(number))?;
    }
    Ok(true)
}

/// Whether each step of the log follows from the clauses before it.
fn are_accepted(alloc: Global, log: &Derivations) -> Result<bool, NoMemory> {
    let mut before = ClauseList::new(alloc);
    add_variables(&mut before, log.known().vars() as usize)?;
    are_accepted_after(alloc, log, &mut before)
}

fn does_refute(known: &ClauseList, number: u64, assumptions: &[Lit]) -> bool {
    number < known.len() && refutes(known.clause(number), assumptions)
}

/// The number of the step that is named to refute the assumptions.
fn refuted_at<P: Propagator + Drop>(
    solver: &mut Solver<P>,
    assumptions: &[Lit],
    budget: u64,
) -> Option<u64>
    requires in_range { InRange solver.old.log.vars assumptions.now }
    requires distinct { AllPairs (λ a b. a.var ≢ b.var) assumptions.now }
    requires budget { 1 ≤ budget }
{
    match solver.ask(assumptions, budget) {
        Ok(Reply::Refuted(number)) => Some(number),
        _ => None,
    }
}

/// The number of the step that refutes the assumptions, where its clause does and each step of the
/// log follows.
fn refuting_step<P: Propagator + Drop>(
    alloc: Global,
    solver: &mut Solver<P>,
    assumptions: &[Lit],
    budget: u64,
) -> Result<Option<u64>, NoMemory>
    requires in_range { InRange solver.old.log.vars assumptions.now }
    requires distinct { AllPairs (λ a b. a.var ≢ b.var) assumptions.now }
    requires budget { 1 ≤ budget }
{
    let Some(number) = refuted_at(solver, assumptions, budget) else {
        return Ok(None);
    };
    let log = solver.derivations();
    if does_refute(log.known(), number, assumptions) && are_accepted(alloc, log)? {
        Ok(Some(number))
    } else {
        Ok(None)
    }
}

/// The step that refutes, of the fourteen clauses, that 7 is true, and 1 and 8 false.
pub fn refuting_assumptions<P: Propagator + Drop>(alloc: Global) -> Result<Option<u64>, NoMemory> {
    let mut solver: Solver<P> = Solver::new(alloc, fourteen_clauses(alloc)?)?;
    let assumptions = [Lit::negative(1), Lit::positive(7), Lit::negative(8)];
    refuting_step(alloc, &mut solver, &assumptions, 10)
}

/// The first variable's value in what is found where the third is true.
fn first_under_third<P: Propagator + Drop>(solver: &mut Solver<P>) -> Option<bool>
    requires { solver.old.log.vars ≡ 8 }
{
    match solver.ask(&[Lit::positive(3)], 10) {
        Ok(Reply::Found(values)) => Some(values.value(1)),
        _ => None,
    }
}

/// That value for the fourteen clauses, and how many clauses are known then.
pub fn found_under_third<P: Propagator + Drop>(
    alloc: Global,
) -> Result<(Option<bool>, u64), NoMemory> {
    let mut solver: Solver<P> = Solver::new(alloc, fourteen_clauses(alloc)?)?;
    let first = first_under_third(&mut solver);
    Ok((first, solver.into_derivations().known().len()))
}

/// What is told of a solver that no assignment satisfies: where it gives up after one step, whether
/// step 4 is learned and a unit, and the step that answers the next question.
pub type Spent = (Option<u64>, bool, Option<u64>);

/// The number of the first step of a question that may learn one step, where that is spent.
fn spent_at<P: Propagator + Drop>(solver: &mut Solver<P>) -> Option<u64> {
    match solver.ask(&[], 1) {
        Ok(Reply::GaveUp(number)) => Some(number),
        _ => None,
    }
}

fn spent_by<P: Propagator + Drop>(
    alloc: Global,
    solver: &mut Solver<P>,
) -> Result<Spent, NoMemory> {
    let spent = spent_at(solver);
    let is_unit = is_step(solver.derivations(), 4, StepKind::Learned, 1);
    Ok((spent, is_unit, refuting_step(alloc, solver, &[], 10)?))
}

/// The same of a solver of the four clauses over two variables.
pub fn spent_on_all_of_two<P: Propagator + Drop>(alloc: Global) -> Result<Spent, NoMemory> {
    let mut solver: Solver<P> = Solver::new(alloc, all_of_two(alloc)?)?;
    spent_by(alloc, &mut solver)
}

/// Whether step 1 has no link and begins at clause 0.
fn is_first_copied(alloc: Global, log: &Derivations) -> Result<bool, NoMemory> {
    if 1 < log.main_len() || log.known().len() <= 1 {
        return Ok(false);
    }
    let step = log.step(alloc, 1)?;
    Ok(step.first == 0 && step.chain.as_slice().is_empty())
}

/// The refuting step, whether step 1 is claimed and empty, and whether it copies clause 0.
pub type Claimed = (Option<u64>, bool, bool);

fn claimed_by<P: Propagator + Drop>(
    alloc: Global,
    solver: &mut Solver<P>,
) -> Result<Claimed, NoMemory> {
    let refuting = refuting_step(alloc, solver, &[], 1)?;
    let log = solver.derivations();
    let is_empty = is_step(log, 1, StepKind::Claimed, 0);
    Ok((refuting, is_empty, is_first_copied(alloc, log)?))
}

/// What a solver claims of the empty clause.
pub fn claimed_of_the_empty_clause<P: Propagator + Drop>(
    alloc: Global,
) -> Result<Claimed, NoMemory> {
    let mut solver: Solver<P> = Solver::new(alloc, empty_clause(alloc)?)?;
    claimed_by(alloc, &mut solver)
}

//! Literals and clauses as numbers.

use agent_copies::AgentCopy;
use clause_store::{ClauseList, Lit};
use edge::NoMemory;
use std::alloc::Global;
use totalizer::Unary;

/// A literal as a number, negative where the literal is.
pub fn lit_number(lit: Lit) -> i64 {
    let number = i64::from(lit.var);
    if lit.positive { number } else { -number }
}

/// Appends literals as numbers.
pub fn push_lits(numbers: &mut Vec<i64>, lits: &[Lit]) -> Result<(), NoMemory> {
    for lit in lits {
        numbers.push(lit_number(*lit))?;
    }
    Ok(())
}

/// Appends the outputs of a counter.
pub fn push_outputs(numbers: &mut Vec<i64>, counter: &Unary) -> Result<(), NoMemory> {
    for output in counter.outputs() {
        numbers.push(i64::from(*output))?;
    }
    Ok(())
}

/// Appends the own literals of an agent's copy, its root and the outputs of its distance.
pub fn push_copy(numbers: &mut Vec<i64>, copy: &AgentCopy) -> Result<(), NoMemory> {
    push_lits(numbers, copy.own.as_slice())?;
    push_lits(numbers, &[copy.root])?;
    push_outputs(numbers, &copy.away)
}

/// Appends the clauses in order, with 0 before each.
pub fn push_clauses(numbers: &mut Vec<i64>, clauses: &ClauseList) -> Result<(), NoMemory> {
    for number in 0..clauses.len() {
        numbers.push(0)?;
        push_lits(numbers, clauses.clause(number))?;
    }
    Ok(())
}

/// The number of variables, the outputs of a counter and then the clauses, with 0 before each.
pub fn counted(alloc: Global, counter: &Unary, clauses: &ClauseList) -> Result<Vec<i64>, NoMemory> {
    let mut numbers = Vec::new(alloc);
    numbers.push(i64::from(clauses.vars()))?;
    push_outputs(&mut numbers, counter)?;
    push_clauses(&mut numbers, clauses)?;
    Ok(numbers)
}

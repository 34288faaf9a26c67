//! Either of several variables, as a fresh one.

ghost use Rattle.std.specs.Prelude.{◌≡◌, ◌<◌, ◌≤◌, ◌++◌, IfOk, OnOk, OnErr, length, map};
ghost use Rattle.clause_store.specs.Lits.{sorted_clause};
ghost use Rattle.clause_store.specs.Grew.{Grew};
ghost use Rattle.clause_store.specs.Limits.{var_limit};
ghost use Rattle.totalizer.specs.Counter.{AreVarsWithin};
ghost use Rattle.totalizer.specs.Either.{lifts, needs_one, either_due, IsEither};

use crate::literals::add;
use crate::unary::{Unary, leaf};
use clause_store::{ClauseList, Lit};
use edge::NoMemory;
use std::alloc::Global;

/// A clause for each variable: the output is true where it is.
fn add_lifts(clauses: &mut ClauseList, vars: &[u32], output: u32) -> Result<(), NoMemory>
    requires vars_in { AreVarsWithin clauses.old.vars vars.now }
    requires low { 1 ≤ output }
    requires high { output ≤ clauses.old.vars }
    ensures vars { clauses.new.vars ≡ clauses.old.vars }
    ensures list { OnOk result (clauses.new.list ≡ clauses.old.list ++ map sorted_clause
        (map (lifts output) vars.now)) }
    ensures err { OnErr result (Grew clauses.old clauses.new (map (lifts output) vars.now)) }
{
    for var in vars {
        add(clauses, &[Lit::negative(*var), Lit::positive(output)])?;
    }
    Ok(())
}

/// The clause that some variable is true where the output is.
fn needing_one(alloc: Global, vars: &[u32], output: u32) -> Result<Vec<Lit>, NoMemory>
    ensures { IfOk result (λ lits. lits.items ≡ needs_one output vars.now) }
{
    let mut lits = Vec::with_capacity(alloc, vars.len() + 1)?;
    lits.push(Lit::negative(output))?;
    for var in vars {
        lits.push(Lit::positive(*var))?;
    }
    Ok(lits)
}

/// The disjunction of variables: appends clauses over one fresh variable, which is true exactly
/// where one of the variables is, and answers the counter of it. After `NoMemory` the list has
/// grown by some variables and some of these clauses, from the first on.
pub fn either(alloc: Global, clauses: &mut ClauseList, vars: &[u32]) -> Result<Unary, NoMemory>
    requires some { 1 ≤ length vars.now }
    requires vars_in { AreVarsWithin clauses.old.vars vars.now }
    requires room { clauses.old.vars < var_limit }
    ensures outputs { IfOk result (λ r. r ≡ (either_due clauses.old.vars vars.now).outputs) }
    ensures vars { OnOk result (clauses.new.vars ≡ (either_due clauses.old.vars vars.now).vars) }
    ensures list { OnOk result (clauses.new.list ≡ clauses.old.list ++ map sorted_clause
        (either_due clauses.old.vars vars.now).clauses) }
    ensures err { OnErr result (Grew clauses.old clauses.new
        (either_due clauses.old.vars vars.now).clauses) }

    // What the clauses mean.
    ensures either { IsEither clauses.old.vars vars.now (either_due clauses.old.vars vars.now) }
{
    let output = clauses.vars() + 1;
    let counter = leaf(alloc, output)?;
    let last = needing_one(alloc, vars, output)?;
    let _output = clauses.fresh();
    add_lifts(clauses, vars, output)?;
    add(clauses, &last)?;
    Ok(counter)
}

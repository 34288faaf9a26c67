//! Questions before a sum is made least, whose answers prove nothing: what the solver learns from
//! them helps it later. They bound the totals that the sum is made of, the smaller ones first.

ghost use Rattle.std.specs.Prelude.{◌≡◌, ◌≢◌, ◌↔◌, ◌<◌, ◌≤◌, All, IfOk, IsTrue, length};
ghost use Rattle.cdcl_core.specs.Replies.{IsLonger};
ghost use Rattle.distance_search.specs.Probes.{MayBeAssumed, IsSized};

use crate::engine::Engine;
use crate::totals::{Totals, totals_of};
use clause_store::{Assignment, Lit};
use edge::NoMemory;
use merge_encoding::Frame;
use merge_model::Agent;
use std::alloc::Global;

/// So many steps at most are learned for one of these questions.
const WARMING_BUDGET: u64 = 1000;

/// What a question told.
#[derive(Drop)]
pub enum Told {
    /// The total is above the value.
    Above,
    /// It need not be.
    Seen(Assignment),
    /// Nothing.
    Nothing,
}

/// That the constraint and each base are true.
fn roots(alloc: Global, frame: &Frame) -> Result<Vec<Lit>, NoMemory> {
    let mut roots = Vec::new(alloc);
    roots.push(frame.constraint)?;
    for copy in frame.copies.as_slice() {
        roots.push(copy.root)?;
    }
    Ok(roots)
}

/// Whether no literal is of the variable.
fn lacks(lits: &[Lit], var: u32) -> bool
    ensures { IsTrue result ↔ All (λ l. l.var ≢ var) lits.now }
{
    lits.iter().all(|lit| lit.var != var)
}

/// Whether the literals are of distinct variables within the range.
fn may_be_assumed(lits: &[Lit], vars: u32) -> bool
    ensures { IsTrue result → MayBeAssumed vars lits.now }
{
    for place in 0..lits.len() {
        let var = lits[place].var;
        if var == 0 || var > vars || !lacks(&lits[..place], var) {
            return false;
        }
    }
    true
}

/// Puts a question, if it may be put.
fn ask(engine: &mut Engine, assumed: &[Lit], budget: u64) -> Result<Told, NoMemory>
    requires budget { 1 ≤ budget }
    ensures longer { IsLonger engine.old.log engine.new.log }
    ensures sized { IfOk result (IsSized engine.old.log.vars) }
{
    let vars = engine.derivations().known().vars();
    if !may_be_assumed(assumed, vars) {
        return Ok(Told::Nothing);
    }
    match engine.ask(assumed, budget)? {
        cdcl_core::Reply::Refuted(_) => Ok(Told::Above),
        cdcl_core::Reply::Found(assignment) => Ok(Told::Seen(assignment)),
        cdcl_core::Reply::GaveUp(_) => Ok(Told::Nothing),
    }
}

/// Asks whether a total can be at most a value under these literals.
fn ask_within(
    engine: &mut Engine,
    totals: &Totals,
    place: usize,
    value: u32,
    roots: &mut Vec<Lit>,
    budget: u64,
) -> Result<Told, NoMemory>
    requires place { place < length totals.now.items.items }
    requires budget { 1 ≤ budget }
    ensures longer { IsLonger engine.old.log engine.new.log }
    ensures sized { IfOk result (IsSized engine.old.log.vars) }
{
    roots.push(Lit::negative(totals.above(place, value)))?;
    let told = ask(engine, roots.as_slice(), budget)?;
    let _within = roots.pop();
    Ok(told)
}

/// Raises what a total cannot be below until an assignment shows that it can; whether each question
/// was answered.
fn bound(
    engine: &mut Engine,
    totals: &mut Totals,
    place: usize,
    roots: &mut Vec<Lit>,
    budget: u64,
) -> Result<bool, NoMemory>
    requires place { place < length totals.old.items.items }
    requires budget { 1 ≤ budget }
    ensures longer { IsLonger engine.old.log engine.new.log }
    ensures totals { length totals.new.items.items ≡ length totals.old.items.items }
{
    let vars = engine.derivations().known().vars();
    let mut least = totals.least_of_parts(place);
    let most = totals.items[place].most;
    while least < most {
        match ask_within(engine, totals, place, least, roots, budget)? {
            Told::Above => least += 1,
            Told::Seen(assignment) => {
                totals.see(&assignment, vars);
                totals.items[place].least = least;
                return Ok(true);
            }
            Told::Nothing => return Ok(false),
        }
    }
    totals.items[place].least = least;
    Ok(true)
}

/// Bounds the totals that a sum is made of, and answers the least sum that was seen; the greatest
/// number where there is none. It ends with the first question that has no answer.
pub fn warm_up(
    alloc: Global,
    frame: &Frame,
    agents: &[Agent],
    engine: &mut Engine,
    budget: u64,
) -> Result<u32, NoMemory>
    requires budget { 1 ≤ budget }
    ensures longer { IsLonger engine.old.log engine.new.log }
{
    let mut totals = totals_of(alloc, frame, agents)?;
    let mut assumed = roots(alloc, frame)?;
    let few = budget.min(WARMING_BUDGET);
    let count = totals.items.len();
    for next in 1..count {
        if !bound(engine, &mut totals, next - 1, &mut assumed, few)? {
            break;
        }
    }
    match totals.items.last() {
        Some(sum) => Ok(sum.most),
        None => Ok(u32::MAX),
    }
}

//! Whether a step follows from the clauses before it.
ghost use Rattle.std.specs.Prelude.{◌≡◌, ◌≢◌, ◌<◌, length, IsTrue, ◌↔◌, MatchResult, None, Some};
ghost use Rattle.std.specs.List.{AllByRecursion};
ghost use Rattle.log_checker.specs.Verdicts.{IsAnswer, IsEnd, are_below, chain_from, verdict_of};
ghost use Rattle.clause_store.specs.Clauses.{clause_at};
ghost use Rattle.log_checker.specs.declared.checking.StepStop.TheVariants.{NoMemory as OutOfMemory};

use clause_store::{Clause, ClauseList, Lit, has_lit};
use derivation_log::{Link, Step};
use edge::NoMemory;
use std::alloc::Global;

/// Why a step is refused.
#[derive(Clone, Copy, Debug, PartialEq, Eq)]
pub enum StepStop {
    /// A number in the step is not below the step's own.
    NoSuchClause,
    /// At this link, counted from 0, the literal is not in the running clause, or its negation is
    /// not in the named one.
    NoPivot(u64),
    /// The chain ends in another clause than is written.
    OtherClause,
    /// Memory was refused.
    NoMemory,
}

impl From<NoMemory> for StepStop {
    ghost from_gives = { λ _ stop. stop ≡ OutOfMemory };

    fn from(_error: NoMemory) -> StepStop {
        StepStop::NoMemory
    }
}

/// Whether the step follows from the known clauses, its number being the number of these. Each
/// refusal comes exactly where it applies and none before it in the order of `StepStop`.
pub fn check_step(alloc: Global, known: &ClauseList, step: &Step) -> Result<(), StepStop>
    ensures answer { IsAnswer known.now.list step.now result }
    ensures verdict { MatchResult result (λ _. verdict_of known.now.list step.now ≡ None)
        (λ stop. stop ≢ OutOfMemory → verdict_of known.now.list step.now ≡ Some stop) }
{
    if !are_numbers_below(step, known.len()) {
        return Err(StepStop::NoSuchClause);
    }
    let end = end_of_chain(alloc, known, step.first, step.chain.as_slice())?;
    if !are_same(end.lits(), step.clause.lits()) {
        return Err(StepStop::OtherClause);
    }
    Ok(())
}

fn are_same(left: &[Lit], right: &[Lit]) -> bool
    ensures { IsTrue result ↔ (left.now ≡ right.now) }
{
    left == right
}

/// Whether each number in the step is below this one.
fn are_numbers_below(step: &Step, number: u64) -> bool
    ensures { result ≡ are_below number step.now }
{
    if number <= step.first {
        return false;
    }
    for link in step.chain.as_slice() {
        if number <= link.number {
            return false;
        }
    }
    true
}

/// The clause that the links lead to. Two clauses change places in turn, so that short ones take no
/// memory.
fn end_of_chain(
    alloc: Global,
    known: &ClauseList,
    first: u64,
    links: &[Link],
) -> Result<Clause, StepStop>
    requires first { first < length known.now.list }
    requires links { AllByRecursion (λ link. link.number < length known.now.list) links.now }
    ensures { IsEnd (chain_from known.now.list 0 (clause_at known.now.list first) links.now)
        result }
{
    let mut running = Clause::from_sorted(alloc, known.clause(first))?;
    let mut room = Clause::empty(alloc);
    let mut place = 0;
    for link in links {
        let other = known.clause(link.number);
        if !running.has(link.pivot) {
            return Err(StepStop::NoPivot(place));
        }
        if !has_lit(other, link.pivot.negated()) {
            return Err(StepStop::NoPivot(place));
        }
        let made = running.resolve(link.pivot, other, room)?;
        room = running;
        running = made;
        place += 1;
    }
    Ok(running)
}

//! What a search comes to.
ghost use Rattle.std.specs.Prelude.{◌≡◌, ◌≤◌, IfOk, MatchResult};
ghost use Rattle.report_lines.specs.Accepted.{operator};
ghost use Rattle.report_lines.specs.Operators.{operator_named};
ghost use Rattle.merge_reports.specs.Found.{IsFound, IsEnded, IsSmall};
ghost use Rattle.merge_reports.specs.Outcomes.{IsEnd, IsOutcome};

use crate::judging::merged;
use crate::naming::named;
use agent_copies::Counted;
use aggregators::Levelled;
use derivation_log::Derivations;
use distance_search::{Questions, Search, SearchStop, Subject};
use edge::NoMemory;
use merge_model::{
    AggregatorName, Answer, DistanceName, Drastic, Hamming, Leximax, Max, Problem, Sum,
};
use report_lines::Proof;
use std::alloc::Global;

/// An answer, and the proofs of its claims in order.
#[derive(Drop)]
pub struct Found {
    /// The answer.
    pub answer: Answer,
    /// The proofs.
    pub proofs: Vec<Proof>,
}

/// What a search about a problem came to.
#[derive(Drop)]
pub struct Outcome {
    /// The problem.
    pub problem: Problem,
    /// Its answer, with the proofs.
    pub found: Found,
    /// The main clauses and the steps.
    pub derivations: Derivations,
}

/// Asks for the answer and the proofs of its claims.
fn find<D: Counted + Drop, A: Levelled + Drop>(
    alloc: Global,
    search: &mut Search<D, A>,
) -> Result<Found, SearchStop>
    ensures subject { search.new.subject ≡ search.old.subject }
    ensures answer { MatchResult result
        (λ found. IsFound
        (⟦<Subject<D, A> as Questions>⟧.setting search.old.subject) search.new.engine.log
        found.answer found.proofs.items)
        (λ stop. IsEnded search.new.engine.log search.old.subject.budget stop) }
{
    let consistency = search.consistency()?;
    if consistency.has_models() {
        merged(alloc, search)
    } else {
        let found = named(alloc, &consistency)?;
        Ok(found)
    }
}

/// The same, with the answer that the search gave up where it did.
fn find_end<D: Counted + Drop, A: Levelled + Drop>(
    alloc: Global,
    search: &mut Search<D, A>,
) -> Result<Found, NoMemory>
    ensures subject { search.new.subject ≡ search.old.subject }
    ensures end { IfOk result
        (λ found. IsEnd
        (⟦<Subject<D, A> as Questions>⟧.setting search.old.subject) search.new.engine.log
        search.old.subject.budget found.answer found.proofs.items) }
{
    match find(alloc, search) {
        Ok(found) => Ok(found),
        Err(SearchStop::GaveUp(_)) => Ok(Found {
            answer: Answer::GaveUp,
            proofs: Vec::new(alloc),
        }),
        Err(SearchStop::NoMemory) => Err(NoMemory),
    }
}

/// The log's numbers are small enough to be written.
pub fn is_small(derivations: &Derivations)
    ensures { IsSmall derivations.now }
{
    let known = derivations.known();
    let _ = (known.len(), known.vars());
}

/// Asks for the answer, and hands it out with the problem and the log.
fn outcome_of<D: Counted + Drop, A: Levelled + Drop>(
    alloc: Global,
    mut search: Search<D, A>,
) -> Result<Outcome, NoMemory>
    ensures problem { IfOk result (λ outcome. outcome.problem ≡ search.subject.problem) }
    ensures outcome { IfOk result
        (λ outcome. IsOutcome (operator
        (D.dist search.subject.distance) (D.most search.subject.distance)
        (D.due search.subject.distance)
        (A.rank search.subject.aggregator) (A.levels_of search.subject.aggregator)
        (A.levels_due search.subject.aggregator)) search.subject.budget
        outcome.problem outcome.derivations outcome.found.answer outcome.found.proofs.items) }
{
    let found = find_end(alloc, &mut search);
    let (problem, derivations) = search.into_parts();
    is_small(&derivations);
    Ok(Outcome {
        problem,
        found: found?,
        derivations,
    })
}

/// Searches for the answer to a problem; each question may learn `conflicts` steps.
fn search_by<D: Counted + Drop, A: Levelled + Drop>(
    alloc: Global,
    distance: D,
    aggregator: A,
    conflicts: u64,
    problem: Problem,
) -> Result<Outcome, NoMemory>
    requires { 1 ≤ conflicts }
    ensures problem { IfOk result (λ outcome. outcome.problem ≡ problem) }
    ensures outcome { IfOk result
        (λ outcome. IsOutcome (operator (D.dist distance) (D.most distance) (D.due distance)
        (A.rank aggregator) (A.levels_of aggregator) (A.levels_due aggregator)) conflicts
        outcome.problem outcome.derivations outcome.found.answer outcome.found.proofs.items) }
{
    let search = Search::new(alloc, problem, distance, aggregator, conflicts)?;
    outcome_of(alloc, search)
}

/// The same, by the names of the distance and of the aggregator.
pub fn search_named(
    alloc: Global,
    distance: DistanceName,
    aggregator: AggregatorName,
    conflicts: u64,
    problem: Problem,
) -> Result<Outcome, NoMemory>
    requires { 1 ≤ conflicts }
    ensures problem { IfOk result (λ outcome. outcome.problem ≡ problem) }
    ensures outcome { IfOk result
        (λ outcome. IsOutcome (operator_named distance aggregator outcome.problem.atoms) conflicts
        outcome.problem outcome.derivations outcome.found.answer outcome.found.proofs.items) }
{
    match (distance, aggregator) {
        (DistanceName::Drastic, AggregatorName::Sum) => search_by(
            alloc, Drastic, Sum, conflicts, problem,
        ),
        (DistanceName::Drastic, AggregatorName::Max) => search_by(
            alloc, Drastic, Max, conflicts, problem,
        ),
        (DistanceName::Drastic, AggregatorName::Leximax) => {
            search_by(alloc, Drastic, Leximax, conflicts, problem)
        }
        (DistanceName::Hamming, AggregatorName::Sum) => search_by(
            alloc, Hamming, Sum, conflicts, problem,
        ),
        (DistanceName::Hamming, AggregatorName::Max) => search_by(
            alloc, Hamming, Max, conflicts, problem,
        ),
        (DistanceName::Hamming, AggregatorName::Leximax) => {
            search_by(alloc, Hamming, Leximax, conflicts, problem)
        }
    }
}

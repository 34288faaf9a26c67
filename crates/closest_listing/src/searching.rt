//! The search for a list.
ghost use Rattle.std.specs.Prelude.{◌≡◌, ◌≤◌, length, IfOk, MatchResult};
ghost use Rattle.std.specs.Option.{ForSome};
ghost use Rattle.solver_laws.specs.Ready.{IsLog};
ghost use Rattle.derivation_log.specs.Logs.{Log};
ghost use Rattle.distance_search.specs.Laws.{Laws};
ghost use Rattle.distance_search.specs.Setting.{setting_of, IsOver};
ghost use Rattle.distance_search.specs.Heard.{IsStopped};
ghost use Rattle.distance_search.specs.Results.{IsBestFor};
ghost use Rattle.closest_listing.specs.Lists.{IsProspect, IsListOutcome, setting_named};

use crate::listing::Listing;
use crate::lists::{ClosestList, list_next};
use agent_copies::Counted;
use aggregators::Levelled;
use derivation_log::Derivations;
use distance_search::{Best, Consistency, Questions, Search, SearchStop, Subject};
use edge::NoMemory;
use formulas::Valuation;
use merge_model::{AggregatorName, DistanceName, Drastic, Hamming, Leximax, Max, Problem, Sum};
use std::alloc::Global;

/// How a search for a list ends.
#[derive(Drop)]
pub enum ListEnd {
    /// With the list.
    Listed(ClosestList),
    /// Some formula has no model.
    Lacking(Consistency),
    /// A question spent its budget.
    Spent,
}

/// What a search for a list came to.
#[derive(Drop)]
pub struct ListOutcome {
    /// The problem.
    pub problem: Problem,
    /// How it ended.
    pub end: ListEnd,
    /// The main clauses and the steps.
    pub derivations: Derivations,
}

/// What a list begins with.
#[derive(Drop)]
enum Prospect {
    /// A best answer: there are closest valuations.
    Best(Best),
    /// Some formula has no model: there is none.
    Lacking(Consistency),
}

/// A best answer, or which formulas have no model.
fn prospect_of<D: Counted + Drop, A: Levelled + Drop>(
    search: &mut Search<D, A>,
) -> Result<Prospect, SearchStop>
    ensures subject { search.new.subject ≡ search.old.subject }
    ensures answer { MatchResult result
        (λ found. IsProspect
        (⟦<Subject<D, A> as Questions>⟧.setting search.old.subject) search.new.engine.log found)
        (λ stop. (before : Log) ×
        IsStopped before search.new.engine.log search.old.subject.budget stop) }
{
    let consistency = search.consistency()?;
    if consistency.has_models() {
        Ok(Prospect::Best(search.best()?))
    } else {
        Ok(Prospect::Lacking(consistency))
    }
}

/// What a search came to that ended so.
fn ended<D: Counted + Drop, A: Levelled + Drop>(search: Search<D, A>, end: ListEnd) -> ListOutcome
    ensures problem { result.problem ≡ search.subject.problem }
    ensures end { result.end ≡ end }
    ensures log { result.derivations ≡ search.engine.log }
    ensures follows { IsLog search.engine.log }
    ensures over { IsOver
        (⟦<Subject<D, A> as Questions>⟧.setting search.subject) search.engine.log }
{
    let (problem, derivations) = search.into_parts();
    ListOutcome {
        problem,
        end,
        derivations,
    }
}

/// The list of closest valuations above a place, at most `count`, where there is a best answer.
fn list_from<D: Counted + Drop, A: Levelled + Drop>(
    alloc: Global,
    search: Search<D, A>,
    best: Best,
    after: Option<Valuation>,
    count: u32,
) -> Result<ListOutcome, NoMemory>
    requires best { IsBestFor (⟦<Subject<D, A> as Questions>⟧.setting search.subject) best }
    requires after { ForSome after (λ v. length v ≡ length search.subject.problem.atoms) }
    ensures problem { IfOk result (λ outcome. outcome.problem ≡ search.subject.problem) }
    ensures outcome { IfOk result (λ outcome. IsListOutcome
        (⟦<Subject<D, A> as Questions>⟧.setting search.subject) search.subject.budget after count
        outcome.derivations outcome.end) }
{
    let mut listing = Listing::new(alloc, search, best, after);
    let end = match list_next(alloc, &mut listing, count) {
        Ok(list) => ListEnd::Listed(list),
        Err(SearchStop::GaveUp(_)) => ListEnd::Spent,
        Err(SearchStop::NoMemory) => return Err(NoMemory),
    };
    let (problem, derivations) = listing.into_parts();
    Ok(ListOutcome {
        problem,
        end,
        derivations,
    })
}

/// The same by a search that has not begun.
fn list_in<D: Counted + Drop, A: Levelled + Drop>(
    alloc: Global,
    search: Search<D, A>,
    after: Option<Valuation>,
    count: u32,
) -> Result<ListOutcome, NoMemory>
    requires { ForSome after (λ v. length v ≡ length search.subject.problem.atoms) }
    ensures problem { IfOk result (λ outcome. outcome.problem ≡ search.subject.problem) }
    ensures outcome { IfOk result (λ outcome. IsListOutcome
        (⟦<Subject<D, A> as Questions>⟧.setting search.subject) search.subject.budget after count
        outcome.derivations outcome.end) }
{
    let mut search = search;
    match prospect_of(&mut search) {
        Ok(Prospect::Best(best)) => list_from(alloc, search, best, after, count),
        Ok(Prospect::Lacking(consistency)) => Ok(ended(search, ListEnd::Lacking(consistency))),
        Err(SearchStop::GaveUp(_)) => Ok(ended(search, ListEnd::Spent)),
        Err(SearchStop::NoMemory) => Err(NoMemory),
    }
}

/// Searches for the closest valuations above a place, at most `count`; each question may learn
/// `budget` steps.
fn list_by<D: Counted + Drop, A: Levelled + Drop>(
    alloc: Global,
    distance: D,
    aggregator: A,
    budget: u64,
    after: Option<Valuation>,
    count: u32,
    problem: Problem,
) -> Result<ListOutcome, NoMemory>
    requires budget { 1 ≤ budget }
    requires after { ForSome after (λ v. length v ≡ length problem.atoms) }
    ensures problem { IfOk result (λ outcome. outcome.problem ≡ problem) }
    ensures laws { Laws (setting_of (D.dist distance) (D.most distance) (D.due distance)
        (A.rank aggregator) (A.levels_of aggregator) (A.levels_due aggregator) problem) }
    ensures outcome { IfOk result (λ outcome. IsListOutcome
        (setting_of (D.dist distance) (D.most distance) (D.due distance)
        (A.rank aggregator) (A.levels_of aggregator) (A.levels_due aggregator) problem)
        budget after count outcome.derivations outcome.end) }
{
    let search = Search::new(alloc, problem, distance, aggregator, budget)?;
    list_in(alloc, search, after, count)
}

/// Searches for the closest valuations above a place, or for the least of all, under the named
/// distance and aggregator: at most `count`, and whether there is one more. Each question may learn
/// `budget` steps. `NoMemory` for want of memory.
pub fn list_closest(
    alloc: Global,
    distance: DistanceName,
    aggregator: AggregatorName,
    budget: u64,
    after: Option<Valuation>,
    count: u32,
    problem: Problem,
) -> Result<ListOutcome, NoMemory>
    requires budget { 1 ≤ budget }
    requires after { ForSome after (λ v. length v ≡ length problem.atoms) }
    ensures problem { IfOk result (λ outcome. outcome.problem ≡ problem) }
    ensures laws { Laws (setting_named distance aggregator problem) }
    ensures outcome { IfOk result
        (λ outcome. IsListOutcome (setting_named distance aggregator problem)
        budget after count outcome.derivations outcome.end) }
{
    match (distance, aggregator) {
        (DistanceName::Drastic, AggregatorName::Sum) => list_by(
            alloc, Drastic, Sum, budget, after, count, problem,
        ),
        (DistanceName::Drastic, AggregatorName::Max) => list_by(
            alloc, Drastic, Max, budget, after, count, problem,
        ),
        (DistanceName::Drastic, AggregatorName::Leximax) => list_by(
            alloc, Drastic, Leximax, budget, after, count, problem,
        ),
        (DistanceName::Hamming, AggregatorName::Sum) => list_by(
            alloc, Hamming, Sum, budget, after, count, problem,
        ),
        (DistanceName::Hamming, AggregatorName::Max) => list_by(
            alloc, Hamming, Max, budget, after, count, problem,
        ),
        (DistanceName::Hamming, AggregatorName::Leximax) => list_by(
            alloc, Hamming, Leximax, budget, after, count, problem,
        ),
    }
}

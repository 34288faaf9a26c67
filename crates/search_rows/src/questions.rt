//! One question to a search about the problem that a text spells, by any distance and any
//! aggregator, with more steps than any of them learns. Each answers `None` where the search stops.
ghost use Rattle.std.specs.Prelude.{◌≡◌, ◌<◌, ◌≤◌, IsTrue, IfSome};
ghost use Rattle.distance_search.specs.Results.{IsConsistent, IsBestFor};

use agent_copies::Counted;
use aggregators::Levelled;
use distance_search::{Away, Best, Consistency, Entails, Questions, Search, SearchStop, Subject};
use formulas::Valuation;
use problem_reading::read_problem;
use std::alloc::Global;

/// More steps than any question here learns.
const AMPLE: u64 = 100_000;

fn search_about<D: Counted + Drop, A: Levelled + Drop>(
    alloc: Global,
    text: &str,
    distance: D,
    aggregator: A,
    budget: u64,
) -> Option<Search<D, A>>
    requires { 1 ≤ budget }
{
    let problem = read_problem(alloc, text.as_bytes()).ok()?;
    Search::new(alloc, problem, distance, aggregator, budget).ok()
}

/// Whether the search's log has a step of this number.
fn has_step<D: Counted + Drop, A: Levelled + Drop>(search: &Search<D, A>, step: u64) -> bool {
    let log = search.derivations();
    log.main_len() <= step && step < log.known().len()
}

/// Whether each number that is there is of a step of the search's log.
fn has_steps<D: Counted + Drop, A: Levelled + Drop>(
    search: &Search<D, A>,
    steps: &[Option<u64>],
) -> bool {
    steps.iter().flatten().all(|step| has_step(search, *step))
}

/// Which formulas have models.
pub fn consistency_about<D: Counted + Drop, A: Levelled + Drop>(
    alloc: Global,
    text: &str,
    distance: D,
    aggregator: A,
) -> Option<Consistency> {
    let mut search = search_about(alloc, text, distance, aggregator, AMPLE)?;
    search.consistency().ok()
}

/// Whether the constraint and each base have a model.
fn has_models<D: Counted + Drop, A: Levelled + Drop>(search: &mut Search<D, A>) -> bool
    ensures subject { search.new.subject ≡ search.old.subject }
    ensures models { IsTrue result →
        IsConsistent (⟦<Subject<D, A> as Questions>⟧.setting search.new.subject) }
{
    match search.consistency() {
        Ok(found) => found.has_models(),
        Err(_) => false,
    }
}

/// A best answer, where the constraint and each base have a model.
fn best_of<D: Counted + Drop, A: Levelled + Drop>(search: &mut Search<D, A>) -> Option<Best>
    ensures { IfSome result
        (IsBestFor (⟦<Subject<D, A> as Questions>⟧.setting search.new.subject)) }
{
    if has_models(search) {
        search.best().ok()
    } else {
        None
    }
}

fn noted_best<D: Counted + Drop, A: Levelled + Drop>(search: &mut Search<D, A>) -> Option<Best> {
    let best = best_of(search)?;
    if has_steps(search, best.far.as_slice()) && has_steps(search, best.least.as_slice()) {
        Some(best)
    } else {
        None
    }
}

/// A best answer, each of whose steps stands in the search's log.
pub fn best_about<D: Counted + Drop, A: Levelled + Drop>(
    alloc: Global,
    text: &str,
    distance: D,
    aggregator: A,
) -> Option<Best> {
    let mut search = search_about(alloc, text, distance, aggregator, AMPLE)?;
    noted_best(&mut search)
}

/// The verdict on the first query, by a best answer.
fn verdict_by<D: Counted + Drop, A: Levelled + Drop>(
    search: &mut Search<D, A>,
    best: &Best,
) -> Option<Entails>
    requires { IsBestFor (⟦<Subject<D, A> as Questions>⟧.setting search.old.subject) best.now }
{
    if search.problem().asks.is_empty() {
        None
    } else {
        search.entails(best, 0).ok()
    }
}

fn is_noted_yes<D: Counted + Drop, A: Levelled + Drop>(search: &mut Search<D, A>) -> Option<bool> {
    let best = best_of(search)?;
    match verdict_by(search, &best)? {
        Entails::Yes(step) => Some(has_step(search, step)),
        Entails::No(_) => Some(false),
    }
}

/// Whether a step of the search's log shows that the first query is entailed.
pub fn is_yes_about<D: Counted + Drop, A: Levelled + Drop>(
    alloc: Global,
    text: &str,
    distance: D,
    aggregator: A,
) -> Option<bool> {
    let mut search = search_about(alloc, text, distance, aggregator, AMPLE)?;
    is_noted_yes(&mut search)
}

/// A closest model that begins with these values, by a best answer.
fn closest_by<D: Counted + Drop, A: Levelled + Drop>(
    search: &mut Search<D, A>,
    best: &Best,
    prefix: &[bool],
) -> Option<Option<Valuation>>
    requires { IsBestFor (⟦<Subject<D, A> as Questions>⟧.setting search.old.subject) best.now }
{
    if prefix.len() <= search.problem().atoms.len() as usize {
        search.closest_with(best, prefix).ok()
    } else {
        None
    }
}

fn closest_with<D: Counted + Drop, A: Levelled + Drop>(
    search: &mut Search<D, A>,
    prefix: &[bool],
) -> Option<Option<Valuation>> {
    let best = best_of(search)?;
    closest_by(search, &best, prefix)
}

/// A closest model that begins with these values.
pub fn closest_about<D: Counted + Drop, A: Levelled + Drop>(
    alloc: Global,
    text: &str,
    distance: D,
    aggregator: A,
    prefix: &[bool],
) -> Option<Option<Valuation>> {
    let mut search = search_about(alloc, text, distance, aggregator, AMPLE)?;
    closest_with(&mut search, prefix)
}

fn noted_distances<D: Counted + Drop, A: Levelled + Drop>(
    search: &mut Search<D, A>,
    bits: u64,
) -> Option<Away>
    requires { bits < 4 }
{
    if search.problem().atoms.len() != 2 || !has_models(search) {
        return None;
    }
    let away = search.distances_of(Valuation::new(bits, 2)).ok()?;
    if has_steps(search, away.far.as_slice()) {
        Some(away)
    } else {
        None
    }
}

/// The distances of the valuation of two atoms that `bits` stands for, each of whose steps stands
/// in the search's log.
pub fn distances_about<D: Counted + Drop, A: Levelled + Drop>(
    alloc: Global,
    text: &str,
    distance: D,
    aggregator: A,
    bits: u64,
) -> Option<Away>
    requires { bits < 4 }
{
    let mut search = search_about(alloc, text, distance, aggregator, AMPLE)?;
    noted_distances(&mut search, bits)
}

/// Where a first question that may learn one step stops, the number of the problem's atoms, and how
/// many clauses are known then.
pub fn stop_after_one_step<D: Counted + Drop, A: Levelled + Drop>(
    alloc: Global,
    text: &str,
    distance: D,
    aggregator: A,
) -> Option<(SearchStop, u32, u64)> {
    let mut search = search_about(alloc, text, distance, aggregator, 1)?;
    let stop = search.consistency().err();
    let (problem, log) = search.into_parts();
    Some((stop?, problem.atoms.len(), log.known().len()))
}

//! A listing and its place.
ghost use Rattle.std.specs.Prelude.{◌≡◌, ◌↔◌, length, IsTrue, MatchResult};
ghost use Rattle.std.specs.Option.{ForSome};
ghost use Rattle.solver_laws.specs.Ready.{IsLog};
ghost use Rattle.cdcl_core.specs.Replies.{IsLonger};
ghost use Rattle.distance_search.specs.Setting.{setting_of, IsOver};
ghost use Rattle.distance_search.specs.Heard.{IsHalted};
ghost use Rattle.distance_search.specs.Results.{IsBestFor};
ghost use Rattle.closest_listing.specs.Listed.{IsNextListed, place_after};

use crate::stepping::next_closest;
use agent_copies::Counted;
use aggregators::Levelled;
use derivation_log::Derivations;
use distance_search::{Best, Engine, Questions, Search, SearchStop, Subject};
use formulas::Valuation;
use merge_model::Problem;
use std::alloc::Global;

/// The closest valuations of a problem in rising order, with a place among them.
#[derive(Drop)]
pub struct Listing<D: Counted + Drop, A: Levelled + Drop> {
    subject: Subject<D, A>,
    engine: Engine,
    best: Best,
    after: Option<Valuation>,
    failed: bool,
    alloc: Global,
    ghost over: { IsOver (setting_of
        (D.dist subject.distance) (D.most subject.distance) (D.due subject.distance)
        (A.rank subject.aggregator) (A.levels_of subject.aggregator)
        (A.levels_due subject.aggregator)
        subject.problem) engine.log },
    ghost known: { ∥ IsBestFor (setting_of
        (D.dist subject.distance) (D.most subject.distance) (D.due subject.distance)
        (A.rank subject.aggregator) (A.levels_of subject.aggregator)
        (A.levels_due subject.aggregator)
        subject.problem) best ∥₁ },
    ghost sized: { ForSome after (λ v. length v ≡ length subject.problem.atoms) },
}

impl<D: Counted + Drop, A: Levelled + Drop> Listing<D, A> {
    /// A listing of the closest valuations above one, or of all; `best` is a best answer of the
    /// search.
    pub fn new(
        alloc: Global,
        search: Search<D, A>,
        best: Best,
        after: Option<Valuation>,
    ) -> Listing<D, A>
        requires best { IsBestFor (⟦<Subject<D, A> as Questions>⟧.setting search.subject) best }
        requires after { ForSome after (λ v. length v ≡ length search.subject.problem.atoms) }
        ensures subject { result.subject ≡ search.subject }
        ensures log { result.engine.log ≡ search.engine.log }
        ensures best { result.best ≡ best }
        ensures place { result.after ≡ after }
        ensures failed { result.failed ≡ search.failed }
    {
        let (subject, engine, failed) = search.into_questions();
        Listing {
            subject,
            engine,
            best,
            after,
            failed,
            alloc,
        }
    }

    /// The least closest valuation above the one that was given last, or above the place of the
    /// beginning, or of all; `None` exactly where there is none. `GaveUp` where the last question
    /// spent its budget, with the number of its first step; `NoMemory` for want of memory, and from
    /// then on always, with nothing changed. A stop leaves the place as it was, and the log with
    /// steps that follow.
    pub fn next(&mut self) -> Result<Option<Valuation>, SearchStop>
        ensures subject { self.new.subject ≡ self.old.subject }
        ensures best { self.new.best ≡ self.old.best }
        ensures longer { IsLonger self.old.engine.log self.new.engine.log }
        ensures sound { IsLog self.new.engine.log }
        ensures over { IsOver (⟦<Subject<D, A> as Questions>⟧.setting self.old.subject)
            self.new.engine.log }
        ensures answer { MatchResult result
            (λ next. IsNextListed
            (⟦<Subject<D, A> as Questions>⟧.setting self.old.subject) self.old.after next)
            (λ stop. IsHalted
            self.old.engine.log self.new.engine.log self.old.subject.budget stop) }
        ensures place { self.new.after ≡ place_after self.old.after result }
        ensures failed { IsTrue self.new.failed ↔ (result ≡ Err SearchStop.NoMemory) }
        ensures fails_on { IsTrue self.old.failed → result ≡ Err SearchStop.NoMemory }
        ensures stays { IsTrue self.old.failed → self.new.engine ≡ self.old.engine }
    {
        if self.failed {
            self.note(true);
            return Err(SearchStop::NoMemory);
        }
        let atoms = self.subject.problem.atoms.len();
        let outcome = next_closest(
            self.alloc,
            &self.subject,
            &mut self.engine,
            &self.best,
            self.after,
            atoms,
        );
        self.note(is_wanting(&outcome));
        self.after = place_of(self.after, &outcome);
        outcome
    }

    /// Notes whether memory was wanting. Each step of the log follows then, too.
    fn note(&mut self, wanting: bool)
        ensures subject { self.new.subject ≡ self.old.subject }
        ensures engine { self.new.engine ≡ self.old.engine }
        ensures best { self.new.best ≡ self.old.best }
        ensures place { self.new.after ≡ self.old.after }
        ensures failed { self.new.failed ≡ wanting }
        ensures sound { IsLog self.new.engine.log }
    {
        let _ = self.engine.derivations();
        self.failed = wanting;
    }

    /// The main clauses and the steps so far, each of which follows.
    pub fn derivations(&self) -> &Derivations
        ensures log { result.now ≡ self.now.engine.log }
        ensures sound { IsLog self.now.engine.log }
        ensures main { IsOver
            (⟦<Subject<D, A> as Questions>⟧.setting self.now.subject) self.now.engine.log }
    {
        self.engine.derivations()
    }

    /// The problem, and the log as it stands.
    pub fn into_parts(self) -> (Problem, Derivations)
        ensures problem { result.0 ≡ self.subject.problem }
        ensures log { result.1 ≡ self.engine.log }
        ensures sound { IsLog self.engine.log }
        ensures over { IsOver
            (⟦<Subject<D, A> as Questions>⟧.setting self.subject) self.engine.log }
    {
        let Listing {
            subject,
            engine,
            best: _,
            after: _,
            failed: _,
            alloc: _,
        } = self;
        let Subject {
            problem,
            distance: _,
            aggregator: _,
            frame: _,
            budget: _,
        } = subject;
        (problem, engine.into_derivations())
    }
}

/// Whether memory was wanting.
fn is_wanting(outcome: &Result<Option<Valuation>, SearchStop>) -> bool
    ensures { IsTrue result ↔ (outcome.now ≡ Err SearchStop.NoMemory) }
{
    matches!(outcome, Err(SearchStop::NoMemory))
}

/// The place after an answer.
fn place_of(
    after: Option<Valuation>,
    outcome: &Result<Option<Valuation>, SearchStop>,
) -> Option<Valuation>
    ensures { result ≡ place_after after outcome.now }
{
    match outcome {
        Ok(Some(next)) => Some(*next),
        Ok(None) => after,
        Err(_) => after,
    }
}

//! The search, as its callers see it.

ghost use Rattle.std.specs.Prelude.{◌≡◌, ◌<◌, ◌≤◌, ◌↔◌, false, [], length, map, All, IfOk};
ghost use Rattle.std.specs.Prelude.{MatchResult, IsTrue};
ghost use Rattle.clause_store.specs.Lits.{sorted_clause};
ghost use Rattle.solver_laws.specs.Ready.{IsLog};
ghost use Rattle.cdcl_core.specs.Replies.{IsLonger};
ghost use Rattle.merge_encoding.specs.Frames.{frame_of};
ghost use Rattle.merge_encoding.specs.MainDues.{due_for};
ghost use Rattle.merge_model.specs.Answers.{profile_of};
ghost use Rattle.merge_model.specs.Merging.{HasModel};
ghost use Rattle.distance_search.specs.Setting.{setting_of, IsOver};
ghost use Rattle.distance_search.specs.AtHand.{AreAtHand};
ghost use Rattle.distance_search.specs.Heard.{IsHalted};
ghost use Rattle.distance_search.specs.Results.{IsConsistent, IsBestFor, IsBest, IsAway, IsJudged};
ghost use Rattle.distance_search.specs.Results.{IsConsistency, IsWith};

use crate::answer::{Away, Best, Consistency, Entails};
use crate::asking::Questions;
use crate::engine::Engine;
use crate::reply::SearchStop;
use crate::subject::Subject;
use crate::{closest, distances, naming, pool};
use agent_copies::Counted;
use aggregators::Levelled;
use cdcl_core::Solver;
use derivation_log::Derivations;
use edge::NoMemory;
use formulas::Valuation;
use merge_encoding::{Frame, Main, encode};
use merge_model::Problem;
use std::alloc::Global;

/// Answers about a problem, each with the steps of a log that show it. Agents, queries and levels
/// are counted from 0.
///
/// A call that asks questions answers `GaveUp` where its last question learned as many steps as the
/// budget allows, with the number of the first of them, and `NoMemory` for want of memory. Once a
/// call has answered `NoMemory`, every later one does, and nothing changes. The log grows at its
/// end alone, by steps that follow, also where a call has no answer.
#[derive(Drop)]
pub struct Search<D: Counted + Drop, A: Levelled + Drop> {
    subject: Subject<D, A>,
    engine: Engine,
    pool: Vec<Away>,
    failed: bool,
    alloc: Global,
    ghost over: { IsOver (setting_of
        (D.dist subject.distance) (D.most subject.distance) (D.due subject.distance)
        (A.rank subject.aggregator) (A.levels_of subject.aggregator)
        (A.levels_due subject.aggregator)
        subject.problem) engine.log },
    ghost at_hand: { AreAtHand (setting_of
        (D.dist subject.distance) (D.most subject.distance) (D.due subject.distance)
        (A.rank subject.aggregator) (A.levels_of subject.aggregator)
        (A.levels_due subject.aggregator)
        subject.problem) engine.log pool.items },
}

impl<D: Counted + Drop, A: Levelled + Drop> Search<D, A> {
    /// A search about a problem under a distance and an aggregator, with a log of no step, each of
    /// whose questions learns at most `budget` steps; `NoMemory` for want of memory.
    pub fn new(
        alloc: Global,
        problem: Problem,
        distance: D,
        aggregator: A,
        budget: u64,
    ) -> Result<Search<D, A>, NoMemory>
        requires { 1 ≤ budget }
        ensures problem { IfOk result (λ search. search.subject.problem ≡ problem) }
        ensures distance { IfOk result (λ search. search.subject.distance ≡ distance) }
        ensures aggregator { IfOk result (λ search. search.subject.aggregator ≡ aggregator) }
        ensures budget { IfOk result (λ search. search.subject.budget ≡ budget) }
        ensures steps { IfOk result (λ search. search.engine.log.steps ≡ []) }
        ensures ready { IfOk result (λ search. search.failed ≡ false) }
    {
        let Main { clauses, frame } = encode(alloc, &problem, &distance, &aggregator)?;
        let engine = Solver::new(alloc, clauses)?;
        let subject = Subject {
            problem,
            distance,
            aggregator,
            frame,
            budget,
        };
        Ok(Search {
            subject,
            engine,
            pool: Vec::new(alloc),
            failed: false,
            alloc,
        })
    }

    /// The problem.
    pub fn problem(&self) -> &Problem
        ensures { result.now ≡ self.now.subject.problem }
    {
        &self.subject.problem
    }

    /// Where the parts of the problem stand in its main clauses.
    pub fn frame(&self) -> &Frame
        ensures { result.now ≡ frame_of (due_for (D.due self.now.subject.distance)
            (A.levels_due self.now.subject.aggregator) self.now.subject.problem) }
    {
        &self.subject.frame
    }

    /// The main clauses and the steps so far, each of which follows.
    pub fn derivations(&self) -> &Derivations
        ensures log { result.now ≡ self.now.engine.log }
        ensures sound { IsLog self.now.engine.log }
        ensures main { self.now.engine.log.main ≡
            map sorted_clause (due_for (D.due self.now.subject.distance)
            (A.levels_due self.now.subject.aggregator) self.now.subject.problem).clauses }
    {
        self.engine.derivations()
    }

    /// A model of the constraint and of each base, or the step that shows that there is none. One
    /// question for each.
    pub fn consistency(&mut self) -> Result<Consistency, SearchStop>
        ensures subject { self.new.subject ≡ self.old.subject }
        ensures longer { IsLonger self.old.engine.log self.new.engine.log }
        ensures sound { IsLog self.new.engine.log }
        ensures over { IsOver (⟦<Subject<D, A> as Questions>⟧.setting self.old.subject)
            self.new.engine.log }
        ensures answer { MatchResult result
            (λ found. IsConsistency
            (⟦<Subject<D, A> as Questions>⟧.setting self.old.subject) self.new.engine.log found)
            (λ stop. IsHalted
            self.old.engine.log self.new.engine.log self.old.subject.budget stop) }
        ensures failed { IsTrue self.new.failed ↔ (result ≡ Err SearchStop.NoMemory) }
        ensures fails_on { IsTrue self.old.failed → result ≡ Err SearchStop.NoMemory }
        ensures stays { IsTrue self.old.failed → self.new.engine ≡ self.old.engine }
    {
        if self.failed {
            self.note(true);
            return Err(SearchStop::NoMemory);
        }
        let outcome = naming::consistency(self.alloc, &self.subject, &mut self.engine);
        self.note(is_wanting(&outcome));
        outcome
    }

    /// A closest model with its exact distances, their rank and their level values, and the steps
    /// that show them least, where the constraint and each base have a model.
    pub fn best(&mut self) -> Result<Best, SearchStop>
        requires { IsConsistent (⟦<Subject<D, A> as Questions>⟧.setting self.old.subject) }
        ensures subject { self.new.subject ≡ self.old.subject }
        ensures longer { IsLonger self.old.engine.log self.new.engine.log }
        ensures sound { IsLog self.new.engine.log }
        ensures over { IsOver (⟦<Subject<D, A> as Questions>⟧.setting self.old.subject)
            self.new.engine.log }
        ensures answer { MatchResult result
            (λ best. IsBest
            (⟦<Subject<D, A> as Questions>⟧.setting self.old.subject) self.new.engine.log best)
            (λ stop. IsHalted
            self.old.engine.log self.new.engine.log self.old.subject.budget stop) }
        ensures failed { IsTrue self.new.failed ↔ (result ≡ Err SearchStop.NoMemory) }
        ensures fails_on { IsTrue self.old.failed → result ≡ Err SearchStop.NoMemory }
        ensures stays { IsTrue self.old.failed → self.new.engine ≡ self.old.engine }
    {
        if self.failed {
            self.note(true);
            return Err(SearchStop::NoMemory);
        }
        let outcome = pool::best(self.alloc, &self.subject, &mut self.engine, &mut self.pool);
        self.note(is_wanting(&outcome));
        outcome
    }

    /// The exact distances of a valuation over the problem's atoms, and the steps that show them
    /// least, where each base has a model.
    pub fn distances_of(&mut self, model: Valuation) -> Result<Away, SearchStop>
        requires sized { length model ≡ length self.old.subject.problem.atoms }
        requires bases { All (HasModel (length self.old.subject.problem.atoms))
            (profile_of self.old.subject.problem).bases }
        ensures subject { self.new.subject ≡ self.old.subject }
        ensures longer { IsLonger self.old.engine.log self.new.engine.log }
        ensures sound { IsLog self.new.engine.log }
        ensures over { IsOver (⟦<Subject<D, A> as Questions>⟧.setting self.old.subject)
            self.new.engine.log }
        ensures answer { MatchResult result
            (λ away. IsAway
            (⟦<Subject<D, A> as Questions>⟧.setting self.old.subject) self.new.engine.log away
            × (away.shown.model ≡ model))
            (λ stop. IsHalted
            self.old.engine.log self.new.engine.log self.old.subject.budget stop) }
        ensures failed { IsTrue self.new.failed ↔ (result ≡ Err SearchStop.NoMemory) }
        ensures fails_on { IsTrue self.old.failed → result ≡ Err SearchStop.NoMemory }
        ensures stays { IsTrue self.old.failed → self.new.engine ≡ self.old.engine }
    {
        if self.failed {
            self.note(true);
            return Err(SearchStop::NoMemory);
        }
        let outcome = distances::distances_of(self.alloc, &self.subject, &mut self.engine, model);
        self.note(is_wanting(&outcome));
        outcome
    }

    /// Whether every closest model satisfies a query: the step that shows it, or a closest model
    /// that does not. `best` is a best answer to this problem.
    pub fn entails(&mut self, best: &Best, ask: usize) -> Result<Entails, SearchStop>
        requires ask { ask < length self.old.subject.problem.asks }
        requires best { IsBestFor
            (⟦<Subject<D, A> as Questions>⟧.setting self.old.subject) best.now }
        ensures subject { self.new.subject ≡ self.old.subject }
        ensures longer { IsLonger self.old.engine.log self.new.engine.log }
        ensures sound { IsLog self.new.engine.log }
        ensures over { IsOver (⟦<Subject<D, A> as Questions>⟧.setting self.old.subject)
            self.new.engine.log }
        ensures answer { MatchResult result
            (λ judged. IsJudged
            (⟦<Subject<D, A> as Questions>⟧.setting self.old.subject) self.new.engine.log
            ask best.now.values judged)
            (λ stop. IsHalted
            self.old.engine.log self.new.engine.log self.old.subject.budget stop) }
        ensures failed { IsTrue self.new.failed ↔ (result ≡ Err SearchStop.NoMemory) }
        ensures fails_on { IsTrue self.old.failed → result ≡ Err SearchStop.NoMemory }
        ensures stays { IsTrue self.old.failed → self.new.engine ≡ self.old.engine }
    {
        if self.failed {
            self.note(true);
            return Err(SearchStop::NoMemory);
        }
        let outcome = pool::entails(
            self.alloc,
            &self.subject,
            &mut self.engine,
            &mut self.pool,
            best,
            ask,
        );
        self.note(is_wanting(&outcome));
        outcome
    }

    /// A closest model that begins with these values, or `None` exactly where there is none. `best`
    /// is a best answer to this problem. One question.
    pub fn closest_with(
        &mut self,
        best: &Best,
        prefix: &[bool],
    ) -> Result<Option<Valuation>, SearchStop>
        requires prefix { length prefix.now ≤ length self.old.subject.problem.atoms }
        requires best { IsBestFor
            (⟦<Subject<D, A> as Questions>⟧.setting self.old.subject) best.now }
        ensures subject { self.new.subject ≡ self.old.subject }
        ensures longer { IsLonger self.old.engine.log self.new.engine.log }
        ensures sound { IsLog self.new.engine.log }
        ensures over { IsOver (⟦<Subject<D, A> as Questions>⟧.setting self.old.subject)
            self.new.engine.log }
        ensures answer { MatchResult result
            (λ found. IsWith
            (⟦<Subject<D, A> as Questions>⟧.setting self.old.subject) prefix.now found)
            (λ stop. IsHalted
            self.old.engine.log self.new.engine.log self.old.subject.budget stop) }
        ensures failed { IsTrue self.new.failed ↔ (result ≡ Err SearchStop.NoMemory) }
        ensures fails_on { IsTrue self.old.failed → result ≡ Err SearchStop.NoMemory }
        ensures stays { IsTrue self.old.failed → self.new.engine ≡ self.old.engine }
    {
        if self.failed {
            self.note(true);
            return Err(SearchStop::NoMemory);
        }
        let outcome = closest::closest_with(
            self.alloc,
            &self.subject,
            &mut self.engine,
            best,
            prefix,
        );
        self.note(is_wanting(&outcome));
        outcome
    }

    /// Notes whether memory was wanting. Each step of the log follows then, too.
    fn note(&mut self, wanting: bool)
        ensures subject { self.new.subject ≡ self.old.subject }
        ensures engine { self.new.engine ≡ self.old.engine }
        ensures failed { self.new.failed ≡ wanting }
        ensures sound { IsLog self.new.engine.log }
    {
        let _ = self.engine.derivations();
        self.failed = wanting;
    }

    /// What the search is about, the solver with its log, and whether memory was wanting.
    pub fn into_questions(self) -> (Subject<D, A>, Engine, bool)
        ensures subject { result.0 ≡ self.subject }
        ensures engine { result.1 ≡ self.engine }
        ensures main { IsOver (⟦<Subject<D, A> as Questions>⟧.setting result.0) result.1.log }
        ensures failed { result.2 ≡ self.failed }
    {
        let Search {
            subject,
            engine,
            pool: _,
            failed,
            alloc: _,
        } = self;
        (subject, engine, failed)
    }

    /// The problem, and the log as it stands.
    pub fn into_parts(self) -> (Problem, Derivations)
        ensures problem { result.0 ≡ self.subject.problem }
        ensures log { result.1 ≡ self.engine.log }
        ensures sound { IsLog self.engine.log }
        ensures over { IsOver (setting_of
            (D.dist self.subject.distance) (D.most self.subject.distance)
            (D.due self.subject.distance)
            (A.rank self.subject.aggregator) (A.levels_of self.subject.aggregator)
            (A.levels_due self.subject.aggregator)
            self.subject.problem) self.engine.log }
    {
        let Search {
            subject,
            engine,
            pool: _,
            failed: _,
            alloc: _,
        } = self;
        let Subject {
            problem,
            distance: _,
            aggregator: _,
            frame: _,
            budget: _,
        } = subject;
        (problem, engine.into_derivations())
    }
}

/// Whether memory was wanting.
fn is_wanting<T>(outcome: &Result<T, SearchStop>) -> bool
    ensures { IsTrue result ↔ (outcome.now ≡ Err SearchStop.NoMemory) }
{
    matches!(outcome, Err(SearchStop::NoMemory))
}

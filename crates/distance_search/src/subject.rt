//! A problem with its frame, and its questions.
ghost use Rattle.std.specs.Prelude.{◌≡◌, ◌≤◌};
ghost use Rattle.merge_encoding.specs.Frames.{frame_of};
ghost use Rattle.merge_encoding.specs.MainDues.{due_for};

use crate::asking::Questions;
use crate::engine::Engine;
use crate::hearing::hear;
use crate::reply::{Reply, SearchStop};
use crate::warming::warm_up;
use agent_copies::Counted;
use aggregators::Levelled;
use edge::NoMemory;
use formulas::Valuation;
use merge_encoding::{Claim, Frame};
use merge_model::{Problem, full_vector, measure};
use std::alloc::Global;

/// What a search is about: a problem, with a distance, an aggregator, the frame of its main
/// clauses, and how many steps a question may learn.
#[derive(Drop)]
pub struct Subject<D: Counted + Drop, A: Levelled + Drop> {
    /// What is merged and asked.
    pub problem: Problem,
    /// How far valuations are apart.
    pub distance: D,
    /// Which lists of distances are better.
    pub aggregator: A,
    /// Where the parts of the problem stand in its main clauses.
    pub frame: Frame,
    /// How many steps a question may learn, at least 1.
    pub budget: u64,
    /// That the frame is that of the problem's main clauses.
    pub ghost framed: { frame ≡
        frame_of (due_for (D.due distance) (A.levels_due aggregator) problem) },
    /// That a question may learn a step.
    pub ghost spends: { 1 ≤ budget },
}

impl<D: Counted + Drop, A: Levelled + Drop> Questions for Subject<D, A> {
    ghost use Rattle.distance_search.specs.Setting.{setting_of};
    ghost use Rattle.distance_search.specs.SettingLaws.{laws_of};

    ghost setting = { λ q. setting_of (D.dist q.distance) (D.most q.distance) (D.due q.distance)
        (A.rank q.aggregator) (A.levels_of q.aggregator) (A.levels_due q.aggregator) q.problem };

    ghost budget = { λ q. q.budget };

    ghost laws = { λ q. laws_of (D.dist q.distance) (D.most q.distance) (D.due q.distance)
        (A.rank q.aggregator) (A.levels_of q.aggregator) (A.levels_due q.aggregator)
        (D.counts q.distance) (A.are_levels q.aggregator) (D.bounded q.distance)
        (D.within q.distance)
        (A.monotone q.aggregator) (A.in_order q.aggregator) q.problem };

    fn frame(&self) -> &Frame {
        &self.frame
    }

    fn between(&self, left: Valuation, right: Valuation) -> u32 {
        self.distance.between(left, right)
    }

    fn satisfies(&self, model: Valuation, ask: usize) -> bool {
        self.problem.asks.as_slice()[ask].holds(&model)
    }

    fn measure(&self, alloc: Global, vector: &[u32]) -> Result<Vec<u32>, NoMemory> {
        let full = full_vector(alloc, vector, self.problem.agents.as_slice())?;
        measure(alloc, &self.aggregator, &full)
    }

    fn warm_up(&self, alloc: Global, engine: &mut Engine) -> Result<u32, NoMemory> {
        warm_up(
            alloc,
            &self.frame,
            self.problem.agents.as_slice(),
            engine,
            self.budget,
        )
    }

    fn ask(&self, alloc: Global, engine: &mut Engine, claim: &Claim) -> Result<Reply, SearchStop> {
        hear(alloc, &self.frame, engine, claim, self.budget)
    }
}

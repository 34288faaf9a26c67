use super::ranked::{best_place, full_vectors};
use crate::{Aggregator, Distance, Problem, Sequence};
use edge::NoMemory;
use formulas::Valuation;
use std::alloc::Global;

/// What one pass over all valuations finds of a problem in which every formula has a model.
#[derive(Drop)]
pub struct Walk {
    /// The models of the constraint, in rising order.
    pub candidates: Vec<Valuation>,
    /// The models of each base, in rising order.
    pub tables: Vec<Sequence<Valuation>>,
    /// The full vector of each candidate.
    pub fulls: Vec<Sequence<u32>>,
    /// The place of the first closest candidate.
    pub best: usize,
}

impl Walk {
    ghost use Rattle.std.specs.Prelude.{◌≡◌, ◌≤◌, length, map, All, IfOk};
    ghost use Rattle.merge_model.specs.Answers.{profile_of};
    ghost use Rattle.merge_model.specs.Merging.{models_of};
    ghost use Rattle.merge_model.specs.Walks.{IsWalk};

    /// The pass over the models of the constraint and of the bases; `NoMemory` for want of it.
    pub fn new<D: Distance, A: Aggregator>(
        alloc: Global,
        distance: &D,
        aggregator: &A,
        problem: &Problem,
        candidates: Vec<Valuation>,
        tables: Vec<Sequence<Valuation>>,
    ) -> Result<Walk, NoMemory>
        requires candidates { candidates.items
            ≡ models_of (length problem.now.atoms) problem.now.constraint }
        requires tables { tables.items ≡ map (models_of (length problem.now.atoms))
            (map (λ agent. agent.base) problem.now.agents) }
        requires some_candidate { 1 ≤ length candidates.items }
        requires some_models { All (λ models. 1 ≤ length models) tables.items }
        ensures { IfOk result
            (λ walk. IsWalk (D.dist distance.now) (A.rank aggregator.now)
            (profile_of problem.now) walk) }
    {
        let fulls = full_vectors(
            alloc,
            distance,
            &candidates,
            &tables,
            problem.agents.as_slice(),
        )?;
        let best = best_place(aggregator, &fulls);
        Ok(Walk {
            candidates,
            tables,
            fulls,
            best,
        })
    }
}

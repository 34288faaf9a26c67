//! The plain program: it goes through all valuations, so it serves problems of few atoms, and its
//! contract is the definition of merging.

ghost use Rattle.std.specs.Prelude.{◌≤◌, ◌↔◌, ◌⊎◌, length, IfOk};
ghost use Rattle.merge_model.specs.Answers.{dist_named, rank_named, profile_of, IsRight, IsNamed};
ghost use Rattle.merge_model.specs.Limits.{enumeration_limit};
ghost use Rattle.merge_model.specs.Merging.{LacksModel};

mod judged;
mod named;
mod nearest;
mod ranked;
mod tables;
mod walk;

use crate::{
    Aggregator, AggregatorName, Answer, Distance, DistanceName, Drastic, Hamming, Leximax, Max,
    Problem, Sequence, Sum,
};
use edge::NoMemory;
use judged::merged;
use named::{all_have_models, first, firsts};
use std::alloc::Global;
use tables::{base_models, models};
use walk::Walk;

/// The most atoms of a problem that is merged by going through all valuations.
pub const ENUMERATION_LIMIT: u32 = 8;

/// Merges a problem of at most `ENUMERATION_LIMIT` atoms by going through all valuations;
/// `NoMemory` for want of memory.
///
/// The answer is `Merged` and right by the definitions, or `Inconsistent` exactly where the
/// constraint or a base has no model, and then it names a model of each formula that has one. It is
/// never `GaveUp`.
pub fn merge_plainly<D: Distance, A: Aggregator>(
    alloc: Global,
    distance: &D,
    aggregator: &A,
    problem: &Problem,
) -> Result<Answer, NoMemory>
    requires { length problem.now.atoms ≤ enumeration_limit }
    ensures answer { IfOk result
        (λ answer. IsRight (D.dist distance.now) (A.rank aggregator.now) problem.now answer
        ⊎ IsNamed problem.now answer) }
    ensures inconsistent { IfOk result
        (λ answer. IsNamed problem.now answer ↔ LacksModel (profile_of problem.now)) }
{
    let atoms = problem.atoms.len();
    let candidates = models(alloc, &problem.constraint, atoms)?;
    let tables = base_models(alloc, problem.agents.as_slice(), atoms)?;
    if !all_have_models(&candidates, &tables) {
        return Ok(Answer::Inconsistent {
            constraint: first(&candidates),
            agents: Sequence::from_vec(firsts(alloc, &tables)?),
        });
    }
    let walk = Walk::new(alloc, distance, aggregator, problem, candidates, tables)?;
    merged(alloc, distance, aggregator, problem, &walk)
}

/// The same by the names of the distance and the aggregator; `NoMemory` for want of memory.
pub fn merge_named(
    alloc: Global,
    distance: DistanceName,
    aggregator: AggregatorName,
    problem: &Problem,
) -> Result<Answer, NoMemory>
    requires { length problem.now.atoms ≤ enumeration_limit }
    ensures answer { IfOk result
        (λ answer. IsRight (dist_named distance problem.now.atoms)
        (rank_named aggregator) problem.now answer
        ⊎ IsNamed problem.now answer) }
    ensures inconsistent { IfOk result
        (λ answer. IsNamed problem.now answer ↔ LacksModel (profile_of problem.now)) }
{
    match (distance, aggregator) {
        (DistanceName::Drastic, AggregatorName::Sum) => merge_plainly(
            alloc, &Drastic, &Sum, problem,
        ),
        (DistanceName::Drastic, AggregatorName::Max) => merge_plainly(
            alloc, &Drastic, &Max, problem,
        ),
        (DistanceName::Drastic, AggregatorName::Leximax) => {
            merge_plainly(alloc, &Drastic, &Leximax, problem)
        }
        (DistanceName::Hamming, AggregatorName::Sum) => merge_plainly(
            alloc, &Hamming, &Sum, problem,
        ),
        (DistanceName::Hamming, AggregatorName::Max) => merge_plainly(
            alloc, &Hamming, &Max, problem,
        ),
        (DistanceName::Hamming, AggregatorName::Leximax) => {
            merge_plainly(alloc, &Hamming, &Leximax, problem)
        }
    }
}

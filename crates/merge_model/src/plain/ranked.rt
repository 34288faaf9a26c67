ghost use Rattle.std.specs.Prelude.{◌≡◌, ℕ, ◌+◌, ◌<◌, ◌≤◌, ◌↔◌, IsTrue, length, map, All, IfOk};
ghost use Rattle.std.specs.Prelude.{MatchOption};
ghost use Rattle.formulas.specs.Formulas.{width_of};
ghost use Rattle.merge_model.specs.Merging.{repeated};
ghost use Rattle.merge_model.specs.Plain.{IsOver, AreComparable, IsBestOf, Refutes, distances_of};

use super::nearest::vector;
use crate::{Agent, Aggregator, Distance, Sequence, full_vector};
use edge::NoMemory;
use formulas::{Formula, Valuation};
use std::alloc::Global;

/// The full vector of a valuation; `NoMemory` for want of it.
fn full<D: Distance>(
    alloc: Global,
    distance: &D,
    from: Valuation,
    tables: &[Sequence<Valuation>],
    agents: &[Agent],
) -> Result<Vec<u32>, NoMemory>
    requires aligned { length tables.now ≡ length agents.now }
    requires over { All (IsOver (length from)) tables.now }
    ensures { IfOk result (λ full. full.items ≡ repeated (map (λ agent. agent.times) agents.now)
        (distances_of (D.dist distance.now) tables.now from)) }
{
    let vector = vector(alloc, distance, from, tables)?;
    full_vector(alloc, &vector, agents)
}

/// The full vector of each candidate; `NoMemory` for want of it.
pub fn full_vectors<D: Distance>(
    alloc: Global,
    distance: &D,
    candidates: &[Valuation],
    tables: &[Sequence<Valuation>],
    agents: &[Agent],
) -> Result<Vec<Sequence<u32>>, NoMemory>
    requires aligned { length tables.now ≡ length agents.now }
    requires over { All (λ v. All (IsOver (length v)) tables.now) candidates.now }
    ensures { IfOk result
        (λ fulls. fulls.items ≡ map (λ v. repeated (map (λ agent. agent.times) agents.now)
        (distances_of (D.dist distance.now) tables.now v)) candidates.now) }
{
    let mut fulls = Vec::new(alloc);
    for candidate in candidates {
        let full = full(alloc, distance, *candidate, tables, agents)?;
        fulls.push(Sequence::from_vec(full))?;
    }
    Ok(fulls)
}

/// The place of the first full vector that is no worse than any.
pub fn best_place<A: Aggregator>(aggregator: &A, fulls: &[Sequence<u32>]) -> usize
    requires some { 1 ≤ length fulls.now }
    requires comparable { AreComparable fulls.now }
    ensures { IsBestOf (A.rank aggregator.now) fulls.now (length fulls.now) result }
{
    let mut best = 0;
    for place in 0..fulls.len() {
        best = better_place(aggregator, fulls, best, place);
    }
    best
}

/// The better of the best place so far and one more.
fn better_place<A: Aggregator>(
    aggregator: &A,
    fulls: &[Sequence<u32>],
    best: usize,
    place: usize,
) -> usize
    requires comparable { AreComparable fulls.now }
    requires within { place < length fulls.now }
    requires before { IsBestOf (A.rank aggregator.now) fulls.now place best }
    ensures { IsBestOf (A.rank aggregator.now) fulls.now (place + 1) result }
{
    let order = aggregator.compare(fulls[place].as_slice(), fulls[best].as_slice());
    if order.is_lt() { place } else { best }
}

/// The place of the first candidate that is as good as the best one and makes the query false.
pub fn refuting_place<A: Aggregator>(
    aggregator: &A,
    candidates: &[Valuation],
    fulls: &[Sequence<u32>],
    best: usize,
    ask: &Formula,
) -> Option<usize>
    requires aligned { length fulls.now ≡ length candidates.now }
    requires comparable { AreComparable fulls.now }
    requires within { best < length fulls.now }
    requires width { All (λ v. width_of ask.now ≤ length v) candidates.now }
    ensures { MatchOption result
        ((k : ℕ) → Refutes (A.rank aggregator.now) candidates.now fulls.now best ask.now k → ⊥)
        (λ place. Refutes (A.rank aggregator.now) candidates.now fulls.now best ask.now place) }
{
    for place in 0..candidates.len() {
        if refutes(aggregator, candidates, fulls, best, ask, place) {
            return Some(place);
        }
    }
    None
}

/// Whether the candidate is as good as the best one and makes the query false.
fn refutes<A: Aggregator>(
    aggregator: &A,
    candidates: &[Valuation],
    fulls: &[Sequence<u32>],
    best: usize,
    ask: &Formula,
    place: usize,
) -> bool
    requires aligned { length fulls.now ≡ length candidates.now }
    requires comparable { AreComparable fulls.now }
    requires within { best < length fulls.now }
    requires width { All (λ v. width_of ask.now ≤ length v) candidates.now }
    requires place { place < length candidates.now }
    ensures { IsTrue result
        ↔ Refutes (A.rank aggregator.now) candidates.now fulls.now best ask.now place }
{
    let order = aggregator.compare(fulls[place].as_slice(), fulls[best].as_slice());
    order.is_le() && !ask.holds(&candidates[place])
}

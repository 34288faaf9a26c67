//! What plain evaluation says of an answer's lines.
ghost use Rattle.std.specs.Prelude.{◌≡◌, ◌≤◌, ◌==◌, ◌&&◌, length, map, All, IfOk, MatchOption};
ghost use Rattle.std.specs.Prelude.{nat_le, false, true};
ghost use Rattle.std.specs.List.{list_all};
ghost use Rattle.std.specs.Str.{bytes_eq};
ghost use Rattle.formulas.specs.Formulas.{holds, width_of};
ghost use Rattle.ranks.specs.Limits.{distance_limit, entry_limit};
ghost use Rattle.merge_model.specs.Answers.{dist_named, most_named, rank_named};
ghost use Rattle.merge_encoding.specs.Named.{values_named};
ghost use Rattle.report_lines.specs.Holding.{are_near};

use aggregators::Levelled;
use edge::NoMemory;
use formulas::{Formula, Valuation};
use merge_model::{
    Agent, AggregatorName, Distance, DistanceName, Drastic, Hamming, Leximax, Max, Problem, Sum,
    measure,
};
use std::alloc::Global;

/// The greatest distance over the atoms of a problem.
pub fn top_of(distance: DistanceName, problem: &Problem) -> u32
    ensures is { result ≡ most_named distance problem.now.atoms (length problem.now.atoms) }
    ensures few { result ≤ distance_limit }
{
    let atoms = problem.atoms.len();
    match distance {
        DistanceName::Drastic => Drastic.top(atoms),
        DistanceName::Hamming => Hamming.top(atoms),
    }
}

/// The rank of a full vector.
pub fn rank_of(
    alloc: Global,
    aggregator: AggregatorName,
    full: &[u32],
) -> Result<Vec<u32>, NoMemory>
    requires some { 1 ≤ length full.now }
    requires few { length full.now ≤ entry_limit }
    requires small { All (λ k. k ≤ distance_limit) full.now }
    ensures { IfOk result (λ rank. rank.items ≡ rank_named aggregator full.now) }
{
    match aggregator {
        AggregatorName::Sum => measure(alloc, &Sum, full),
        AggregatorName::Max => measure(alloc, &Max, full),
        AggregatorName::Leximax => measure(alloc, &Leximax, full),
    }
}

/// The level values of a full vector whose entries are at most `top`.
pub fn values_of(
    alloc: Global,
    aggregator: AggregatorName,
    full: &[u32],
    top: u32,
) -> Result<Vec<u32>, NoMemory>
    requires some { 1 ≤ length full.now }
    requires few { length full.now ≤ entry_limit }
    requires within { All (λ k. k ≤ top) full.now }
    requires small { top ≤ distance_limit }
    ensures { IfOk result (λ values. values.items ≡ values_named aggregator full.now top) }
{
    match aggregator {
        AggregatorName::Sum => Sum.level_values(alloc, full, top),
        AggregatorName::Max => Max.level_values(alloc, full, top),
        AggregatorName::Leximax => Leximax.level_values(alloc, full, top),
    }
}

/// The numbers, where each is at most `top`.
pub fn narrowed(alloc: Global, numbers: &[u64], top: u32) -> Result<Option<Vec<u32>>, NoMemory>
    ensures { IfOk result (λ found. MatchOption found
        (list_all (λ d. nat_le d top) numbers.now ≡ false)
        (λ v. (v.items ≡ numbers.now) × (list_all (λ d. nat_le d top) numbers.now ≡ true) ×
        All (λ d. d ≤ top) v.items)) }
{
    let mut all = Vec::new(alloc);
    for number in numbers {
        if *number > u64::from(top) {
            return Ok(None);
        }
        all.push(*number as u32)?;
    }
    Ok(Some(all))
}

/// Whether the numbers are these.
pub fn are_equal(numbers: &[u64], others: &[u32]) -> bool
    requires { length numbers.now ≡ length others.now }
    ensures { result ≡ bytes_eq numbers.now others.now }
{
    for (k, number) in numbers.iter().enumerate() {
        if *number != u64::from(others[k]) {
            return false;
        }
    }
    true
}

/// Whether the valuation is a model of the base at this distance from the model.
fn is_near<D: Distance>(
    distance: &D,
    model: Valuation,
    base: &Formula,
    nearest: Valuation,
    away: u32,
) -> bool
    requires base { width_of base.now ≤ length model }
    requires over { length nearest ≡ length model }
    ensures { result ≡ (holds base.now nearest && (D.dist distance.now model nearest == away)) }
{
    base.holds(&nearest) && distance.between(model, nearest) == away
}

/// Whether each nearest valuation is a model of its agent's base at the distance in the vector.
pub fn are_near<D: Distance>(
    distance: &D,
    model: Valuation,
    agents: &[Agent],
    vector: &[u32],
    nearest: &[Valuation],
) -> bool
    requires bases { All (λ agent. width_of agent.base ≤ length model) agents.now }
    requires over { All (λ w. length w ≡ length model) nearest.now }
    requires vector { length vector.now ≡ length agents.now }
    requires nearest { length nearest.now ≡ length agents.now }
    ensures { result ≡ are_near (D.dist distance.now) model (map
        (λ agent. agent.base) agents.now) vector.now nearest.now }
{
    for (k, agent) in agents.iter().enumerate() {
        if !is_near(distance, model, &agent.base, nearest[k], vector[k]) {
            return false;
        }
    }
    true
}

/// The same by the name of the distance.
pub fn are_near_named(
    distance: DistanceName,
    problem: &Problem,
    model: Valuation,
    vector: &[u32],
    nearest: &[Valuation],
) -> bool
    requires over { All (λ w. length w ≡ length problem.now.atoms) nearest.now }
    requires model { length model ≡ length problem.now.atoms }
    requires vector { length vector.now ≡ length problem.now.agents }
    requires nearest { length nearest.now ≡ length problem.now.agents }
    ensures { result ≡ are_near (dist_named distance problem.now.atoms) model
        (map (λ agent. agent.base) problem.now.agents) vector.now nearest.now }
{
    let agents = problem.agents.as_slice();
    match distance {
        DistanceName::Drastic => are_near(&Drastic, model, agents, vector, nearest),
        DistanceName::Hamming => are_near(&Hamming, model, agents, vector, nearest),
    }
}

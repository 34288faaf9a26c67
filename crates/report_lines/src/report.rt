//! A report as data.
use derivation_log::Derivations;
use merge_model::{AggregatorName, Answer, DistanceName, Problem, Sequence};

/// The step that proves a claim of an answer. Agents, levels and queries are numbered from 0.
#[derive(Clone, Copy, Debug, PartialEq, Eq)]
pub enum Proof {
    /// No valuation satisfies the constraint, by this step.
    Constraint(u64),
    /// No valuation satisfies the base of this agent, by this step.
    Base(usize, u64),
    /// No model of an agent's base is nearer to a shown model than the vector says: the number of
    /// the shown model (0 for the first, else that of the query from 1), the agent, the step.
    Far(usize, usize, u64),
    /// Nothing is better first at this level, by this step.
    Least(usize, u64),
    /// Every closest model satisfies this query, by this step.
    Holds(usize, u64),
}

/// What a report says: what was asked, the answer, and the log with the steps that prove it.
#[derive(Drop)]
pub struct Report {
    /// The distance that was asked for.
    pub distance: DistanceName,
    /// The aggregator that was asked for.
    pub aggregator: AggregatorName,
    /// How many steps a question might learn, from 1 to `CONFLICT_LIMIT`.
    pub conflicts: u64,
    /// What was merged.
    pub problem: Problem,
    /// What it came to.
    pub answer: Answer,
    /// The main clauses and the steps.
    pub derivations: Derivations,
    /// The steps that prove the claims of the answer, in order.
    pub proofs: Sequence<Proof>,
}

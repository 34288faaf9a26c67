//! Claims on a problem.

use formulas::Valuation;
use merge_model::Sequence;

/// What is said of a problem. Agents, levels and queries are numbered from 0; there is one value
/// for each level. A candidate is a model of the constraint with a model of each base; its level
/// values are those of the distances between them.
#[derive(Debug, Drop)]
pub enum Claim {
    /// No valuation satisfies the constraint.
    NoModelOfConstraint,
    /// No valuation satisfies the base of that agent.
    NoModelOfBase(usize),
    /// No model of that agent's base has a distance below this one from the valuation.
    NoNearer(usize, Valuation, u32),
    /// No candidate has at most these values at the levels before that one, and less there.
    NoBetter(usize, Sequence<u32>),
    /// No candidate under which that query is false has at most these values at every level.
    NoBreaker(usize, Sequence<u32>),
    /// No candidate that begins with these truth values has at most these values at every level.
    NoModelWith(Sequence<u32>, Sequence<bool>),
}

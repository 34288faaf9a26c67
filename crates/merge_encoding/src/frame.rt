//! The frame of the main clauses.

use agent_copies::AgentCopy;
use clause_store::{ClauseList, Lit};
use merge_model::Sequence;
use totalizer::Unary;

/// Where the parts of a problem stand in its main clauses.
#[derive(Drop)]
pub struct Frame {
    /// The atoms of the valuation that is looked for, in order.
    pub shared: Sequence<Lit>,
    /// True exactly where the shared literals satisfy the constraint.
    pub constraint: Lit,
    /// For each query, true exactly where the shared literals satisfy it.
    pub asks: Sequence<Lit>,
    /// The copies of the agents, in order.
    pub copies: Sequence<AgentCopy>,
    /// The levels of the aggregator, the first first.
    pub levels: Sequence<Unary>,
}

/// The main clauses of a problem, with their frame.
#[derive(Drop)]
pub struct Main {
    /// The clauses.
    pub clauses: ClauseList,
    /// Where the parts of the problem stand in them.
    pub frame: Frame,
}

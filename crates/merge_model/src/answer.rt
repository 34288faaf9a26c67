use crate::Sequence;
use formulas::Valuation;

/// A valuation, its distance to each base, and a model of each base at that distance.
#[derive(Debug, Drop)]
pub struct Shown {
    /// The valuation that is shown.
    pub model: Valuation,
    /// Its distance to each agent's base, in order.
    pub vector: Sequence<u32>,
    /// For each agent, a model of its base at that distance.
    pub nearest: Sequence<Valuation>,
}

/// Whether every closest model satisfies a query.
#[derive(Debug, Drop)]
pub enum Verdict {
    /// Every closest model satisfies it.
    Yes,
    /// This closest model does not.
    No(Shown),
}

/// What merging a problem comes to.
#[derive(Debug, Drop)]
pub enum Answer {
    /// The constraint and every base have a model.
    Merged {
        /// A closest model.
        best: Shown,
        /// The rank of its distances.
        measure: Sequence<u32>,
        /// One verdict for each query, in order.
        verdicts: Sequence<Verdict>,
    },
    /// The constraint or a base has no model. Each entry is a model, or `None` where there is none.
    Inconsistent {
        /// That of the constraint.
        constraint: Option<Valuation>,
        /// That of each agent's base, in order.
        agents: Sequence<Option<Valuation>>,
    },
    /// The search gave up on a question.
    GaveUp,
}

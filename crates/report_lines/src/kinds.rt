//! What is due after the lines so far, what is accepted, and why a line is refused.

/// What is due next.
#[derive(Clone, Copy, Debug, PartialEq, Eq)]
pub enum Due {
    /// `merge-report 1`
    Head,
    /// `distance D`
    Distance,
    /// `aggregator A`
    Aggregator,
    /// `conflicts B`
    Conflicts,
    /// The line of the atoms.
    Atoms,
    /// The line of the constraint.
    Constraint,
    /// The line of the first agent.
    FirstAgent,
    /// The line of a further agent or of a query, or the first of the answer.
    Agents,
    /// The line of a further query, or the first of the answer.
    Asks,
    /// The model in which a query is false.
    Model,
    /// The distances of the last model.
    Vector,
    /// The nearest models of the bases.
    Nearest,
    /// `measure ..`
    Measure,
    /// The verdict on the next query.
    Verdict,
    /// Whether the base of the next agent has a model.
    Named,
    /// `main V C`
    Main,
    /// A step, or what is due after the steps.
    Log,
    /// The proof of the next claim, or the end.
    Proofs,
    /// Nothing.
    Over,
}

/// What has a model or none.
#[derive(Clone, Copy, Debug, PartialEq, Eq)]
pub enum Subject {
    /// The constraint.
    TheConstraint,
    /// The base of an agent, numbered from 0.
    BaseOf(usize),
}

/// What is accepted.
#[derive(Clone, Copy, Debug, PartialEq, Eq)]
pub enum Kind {
    /// A merge.
    Merged,
    /// Formulas without a model.
    Inconsistent,
    /// A search that gave up.
    Spent,
}

/// Why a line is refused.
#[derive(Clone, Copy, Debug, PartialEq, Eq)]
pub enum RefusedKind {
    /// It has none of the forms that are due.
    Form,
    /// It is no canonical line of a problem that has no fault.
    Problem,
    /// The main clauses have other numbers, or the step does not follow.
    Step,
    /// What it shows is not so.
    Witness,
    /// The step does not refute the claim.
    Claim,
    /// The text ends too early or too late.
    Ended,
}

/// The greatest number of conflicts that a report may state.
pub const CONFLICT_LIMIT: u64 = 1_000_000;

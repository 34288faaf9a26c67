use formulas::{Atoms, Formula};
use merge_model::Agent;

/// What a line without a fault says.
#[derive(Drop)]
pub enum Said {
    /// Nothing: the line has no tokens.
    Nothing,
    /// These are the atoms from then on.
    Names(Atoms),
    /// This is the constraint.
    Condition(Formula),
    /// This agent is there.
    Belief(Agent),
    /// This is a query.
    Query(Formula),
}

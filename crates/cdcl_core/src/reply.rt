//! What a solver answers.
use clause_store::Assignment;

/// The answer to a question, which assumes some literals.
#[derive(Drop)]
pub enum Reply {
    /// An assignment under which the main clauses and the assumptions are true.
    Found(Assignment),
    /// The number of a step whose clause has negations of assumptions alone, so no such assignment
    /// exists.
    Refuted(u64),
    /// The budget was spent; the number of the first step that the question appended.
    GaveUp(u64),
}

//! The solver that answers the questions.
use cdcl_core::Solver;
use watch_lists::Watches;

/// The solver that the search puts its questions to.
pub type Engine = Solver<Watches>;

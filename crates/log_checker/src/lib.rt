//! The checker of derivation logs: whether a step follows by resolution, and whether a clause
//! refutes assumptions.
#![tactic(auto)]

mod checking;
mod laws;
mod refuting;

pub use checking::{StepStop, check_step};
pub use laws::{log_law, one_answer, step_law};
pub use refuting::refutes;

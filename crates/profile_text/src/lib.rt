//! The canonical text of a problem, written.
#![tactic(auto)]

mod lines;
mod writing;

pub use lines::{agent_line, ask_line, atoms_line, constraint_line};
pub use writing::{canonical_text, write_problem};

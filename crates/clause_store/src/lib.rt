//! Literals, clauses, lists of clauses and assignments.
#![tactic(auto)]

mod assignment;
mod clause;
mod clause_list;
mod lit;

pub use assignment::Assignment;
pub use clause::{Clause, has_lit};
pub use clause_list::ClauseList;
pub use lit::Lit;

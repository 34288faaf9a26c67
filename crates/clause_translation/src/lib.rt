//! Clauses that define a formula: each of its nodes gets a variable of its own, after Tseitin
//! (1968).
#![tactic(auto)]

mod nodes;
mod translate;

pub use translate::define;

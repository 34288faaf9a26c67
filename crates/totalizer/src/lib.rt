//! Unary counters as clauses, after the totalizer of Bailleux and Boufkhad (2003): sums of
//! counters, and the disjunction of variables.
#![tactic(auto)]

mod disjunction;
mod literals;
mod sums;
mod unary;

pub use disjunction::either;
pub use sums::{plus, total};
pub use unary::{Unary, leaf, leaves};

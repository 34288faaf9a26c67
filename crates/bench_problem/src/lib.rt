//! Problems to measure speed by: each is drawn from its number.
#![tactic(auto)]

mod bench;
mod draws;
mod planted;

pub use bench::{bench_has_models, bench_problem};

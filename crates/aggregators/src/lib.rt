//! The levels of aggregators: numbers whose lexicographic order is that of the ranks.
#![tactic(auto)]

mod counters;
mod levelled;
mod leximax;
mod max;
mod sum;

pub use levelled::Levelled;

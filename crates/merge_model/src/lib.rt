//! Problems of belief merging and their answers, distances and aggregators with their laws, and
//! the definitions of merging.
#![tactic(auto)]

mod agent;
mod aggregator;
mod answer;
mod distance;
mod full;
mod leximax;
mod max;
mod operator;
mod plain;
mod problem;
mod sequence;
mod sum;

pub use agent::Agent;
pub use aggregator::{Aggregator, StrictAggregator, measure};
pub use answer::{Answer, Shown, Verdict};
pub use distance::{Distance, Drastic, Hamming};
pub use full::full_vector;
pub use leximax::Leximax;
pub use max::Max;
pub use operator::{AggregatorName, DistanceName};
pub use plain::{ENUMERATION_LIMIT, merge_named, merge_plainly};
pub use problem::Problem;
pub use sequence::Sequence;
pub use sum::Sum;

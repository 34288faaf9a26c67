//! The search for closest valuations: questions on a problem, put to a solver of its main clauses.
#![tactic(auto)]

mod answer;
mod asking;
mod closest;
mod distances;
mod engine;
mod hearing;
mod level;
mod naming;
mod pool;
mod question;
mod reply;
mod search;
mod subject;
mod totals;
mod warming;

pub use answer::{Away, Best, Consistency, Entails, Named};
pub use asking::Questions;
pub use closest::closest_with;
pub use engine::Engine;
pub use reply::SearchStop;
pub use search::Search;
pub use subject::Subject;

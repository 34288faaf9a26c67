//! Counters of distances, and the copy of an agent: own literals, its base over them, and the
//! counter of the distance from the shared literals.
#![tactic(auto)]

mod copy;
mod counted;
mod difference;

pub use copy::{AgentCopy, copy_agent};
pub use counted::Counted;

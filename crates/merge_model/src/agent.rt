use crate::Sequence;
use formulas::Formula;

/// A named base, and how often it counts.
#[derive(Debug, Drop)]
pub struct Agent {
    /// The name, in bytes.
    pub name: Sequence<u8>,
    /// How often the base counts, at least once in a problem.
    pub times: u32,
    /// What the agent believes.
    pub base: Formula,
}

//! The limits on a problem: this project's own choice.

/// The most bytes of the name of an atom or an agent.
pub const NAME_LIMIT: usize = 64;

/// The most atoms.
pub const ATOM_LIMIT: u32 = 32;

/// The most atoms of a valuation.
pub const VALUATION_LIMIT: usize = 64;

/// The greatest depth of a formula.
pub const DEPTH_LIMIT: u8 = 128;

/// The most nodes of the constraint, the bases and the queries together.
pub const NODE_LIMIT: u64 = 4096;

/// The most agents.
pub const AGENT_LIMIT: usize = 32;

/// How often all agents may count together.
pub const TIMES_LIMIT: u32 = 32;

/// The most queries.
pub const ASK_LIMIT: usize = 16;

//! The main clauses of a problem, where its parts stand in them, and the claims on it.
#![tactic(auto)]

mod assuming;
mod claim;
mod encoding;
mod frame;
mod laws;
mod reading;

pub use assuming::assumptions;
pub use claim::Claim;
pub use encoding::encode;
pub use frame::{Frame, Main};
pub use laws::{better_law, claim_law, frame_law};

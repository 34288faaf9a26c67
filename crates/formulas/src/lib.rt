//! Valuations of atoms, formulas, names of atoms, what truth means, and the limits on a problem.
#![tactic(auto)]

mod formula;
mod limits;
mod names;
mod valuation;

pub use formula::Formula;
pub use limits::{
    AGENT_LIMIT, ASK_LIMIT, ATOM_LIMIT, DEPTH_LIMIT, NAME_LIMIT, NODE_LIMIT, TIMES_LIMIT,
    VALUATION_LIMIT,
};
pub use names::{Atoms, is_name, is_plain_name, is_reserved, is_word_byte};
pub use valuation::Valuation;

//! Step lines over clauses that are known: which are right next, and how a log ends that spent its
//! conflicts.
#![tactic(auto)]

mod index;
mod spending;
mod taking;

pub use spending::are_last_new;
pub use taking::{TakeStop, step_law, take_step};

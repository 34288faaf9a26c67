//! The closest valuations of a problem, one after another in rising order, from anywhere.
#![tactic(auto)]

mod laws;
mod listing;
mod lists;
mod searching;
mod stepping;

pub use laws::listed_law;
pub use listing::Listing;
pub use lists::{ClosestList, text_of};
pub use searching::{ListEnd, ListOutcome, list_closest};

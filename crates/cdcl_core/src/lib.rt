//! A solver that learns from conflicts, under assumptions, and keeps a log of what it learned.
#![tactic(auto)]

mod analysis;
mod choice;
mod engine;
mod marks;
mod order;
mod reply;
mod searching;
mod solver;

pub use reply::Reply;
pub use solver::Solver;

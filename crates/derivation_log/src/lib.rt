//! The log of resolution steps behind a main list of clauses, and the lines that its steps are
//! written as.
#![tactic(auto)]

mod derivations;
mod laws;
mod reading;
mod step;
mod trimming;
mod wide;
mod writing;

pub use derivations::{Derivations, TrimmedLog, trim};
pub use laws::{one_step, read_back};
pub use reading::{StepReadStop, read_step};
pub use step::{Chain, Link, Step, StepKind};
pub use writing::write_step;

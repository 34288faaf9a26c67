//! Whole reports, by search: what a problem merges to, with the log and the steps that prove it.
#![tactic(auto)]

mod judging;
mod naming;
mod outcome;
mod proving;
mod reporting;
mod trimming;

pub use naming::named;
pub use outcome::{Found, Outcome, is_small};
pub use reporting::{report_of, report_on, trimmed_report};

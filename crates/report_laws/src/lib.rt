//! Laws of reports: each text has one verdict.
#![tactic(auto)]

mod verdicts;

pub use verdicts::each_report_has_one_verdict;

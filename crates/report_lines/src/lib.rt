//! The lines of a report: which are due after those before, what must hold of each, what stands
//! after it, and which whole texts are accepted.
#![tactic(auto)]

mod accepted;
mod kinds;
mod laws;
mod lines;
mod report;
mod rows;

pub use accepted::{accepted_law, accepted_named};
pub use kinds::{CONFLICT_LIMIT, Due, Kind, RefusedKind, Subject};
pub use laws::{accepted_items, never_both, one_item, only_once};
pub use lines::{
    aggregator_line, conflicts_line, distance_line, first_word_of, is_end_line, is_gave_up_line,
    is_head_line, is_no_model_line, main_line, shown_line, verdict_line,
};
pub use report::{Proof, Report};
pub use rows::{has_model_line, model_line, nearest_line, numbers_line};

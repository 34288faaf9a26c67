//! Laws of problem texts: a text has one reading, a next line and an end have one outcome, and
//! canonical texts and no others are read line by line as canonical.
#![tactic(auto)]

mod canonical;
mod next;
mod texts;

pub use canonical::{
    canonical_lines_come_next, canonical_lines_have_their_forms, canonical_order,
    canonical_text_has_its_lines, canonical_text_spells_its_problem,
};
pub use next::{
    each_end_has_one_outcome, each_next_line_has_one_outcome, refused_is_not_canonical,
};
pub use texts::each_text_has_one_reading;

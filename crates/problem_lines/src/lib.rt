//! The lines of a problem text, each by itself: its comment, and what its tokens say.
#![tactic(auto)]

mod comment;
mod form;

pub use comment::content;
pub use form::{LineForm, TIMES_CAP, form_of, token_word};

//! The tokens of a line of text: marks, and words that borrow the text.
#![tactic(auto)]

mod cut;
mod token;

pub use cut::tokens;
pub use token::Token;

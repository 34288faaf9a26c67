//! The words of a line with one blank between each two, and the numbers and literals that words
//! spell.
#![tactic(auto)]

mod numbers;
mod words;
mod writing;

pub use numbers::{WideLit, literal_of, number_of};
pub use words::{Words, first_of};
pub use writing::{
    write_bytes, write_line, write_literal, write_number, write_numbers, write_word, write_words,
};

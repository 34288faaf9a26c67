//! The top call of the program: what the words of a command line ask, answered.
#![tactic(auto)]

mod answering;
mod benching;
mod checking;
mod commands;
mod exact;
mod listing;
mod merging;
mod place;
mod reading;
mod refusal;
mod reply;
/// The exit statuses.
pub mod status;
mod top;

pub use commands::{Command, command_of};
pub use exact::{
    bench_is_exact, lacking_is_exact, list_is_exact, refused_words_are_exact, too_long_is_exact,
};
pub use place::Place;
pub use top::{Outcome, run};

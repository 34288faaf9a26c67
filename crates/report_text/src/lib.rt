//! Reports as texts: written from what a search found, and checked line by line by whoever reads
//! them.
#![tactic(auto)]

mod accepting;
/// What the answer of a report says.
pub mod answering;
/// A checker of reports, line by line.
pub mod checker;
/// The lines before the answer.
pub mod front;
/// The log of a report, its proofs and its end.
pub mod logging;
mod parts;
mod progress;
/// Why a line does not lead on.
pub mod stop;
mod streaming;
mod writing;
mod written;

pub use accepting::{AcceptStop, Refused, accept};
pub use parts::{accepted_has_parts, one_parts};
pub use streaming::{AcceptFromStop, accept_from};
pub use writing::{write_answer, write_report};
pub use written::written_is_accepted;

//! Reading a problem text line by line, with the least fault of each line.
#![tactic(auto)]

mod declarations;
mod ending;
mod formula;
mod judging;
mod lines;
mod names;
mod past;
mod reading;
mod said;
mod stop;
mod text;
mod writing;

pub use reading::Reading;
pub use stop::{TextFault, TextKind, TextStop};
pub use text::read_problem;

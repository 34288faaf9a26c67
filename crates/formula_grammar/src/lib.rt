//! The grammar of formulas: which formula a text spells, and reading it.
#![tactic(auto)]

mod laws;
mod makers;
mod read;
mod run;
mod stack;
mod strip;
mod symbol;
mod symbols;

pub use formula_text::write_formula;
pub use formulas::{Atoms, Formula, Valuation};
pub use laws::{canonical_text_is_read_back, each_text_has_one_outcome};
pub use read::{FormulaStop, OPEN_LIMIT, read_formula, read_tokens};
pub use symbols::node_count;

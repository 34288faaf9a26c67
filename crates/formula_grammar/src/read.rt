ghost use Rattle.std.specs.Prelude.{◌≡◌, ◌≤◌, IfOk, IfErr, length, map, count_by};
ghost use Rattle.formulas.specs.Formulas.{width_of, nodes_of};
ghost use Rattle.formulas.specs.Names.{names_of};
ghost use Rattle.line_tokens.specs.Lexemes.{lexeme_of};
ghost use Rattle.formula_grammar.specs.Symbols.{is_node};
ghost use Rattle.formula_grammar.specs.Readings.{IsRead, IsTextRead, IsStop, IsTextStop};

use crate::makers::{Depths, Formulas};
use crate::run::run;
use crate::symbols::{has_past, most_open, symbols};
use edge::NoMemory as OutOfMemory;
use formulas::{Atoms, DEPTH_LIMIT, Formula};
use line_tokens::{Token, tokens};
use std::alloc::Global;

/// The most brackets that are open at one place of a formula that is read.
pub const OPEN_LIMIT: usize = 128;

/// Why a text is not read as a formula.
#[derive(Clone, Copy, Debug, PartialEq, Eq)]
pub enum FormulaStop {
    /// A byte is no letter, digit, blank, `_` or mark.
    BadByte,
    /// The tokens are no formula, whatever its names.
    BadForm,
    /// A name is that of no atom.
    UnknownAtom,
    /// More than `OPEN_LIMIT` brackets are open at one place, or the depth is over `DEPTH_LIMIT`.
    TooDeep,
    /// There was no memory left.
    NoMemory,
}

impl From<OutOfMemory> for FormulaStop {
    ghost use Rattle.std.specs.Prelude.{◌≡◌};
    ghost use Rattle.formula_grammar.specs.declared.read.FormulaStop.TheVariants.{NoMemory};

    ghost from_gives = { λ _ stop. stop ≡ NoMemory };

    fn from(_error: OutOfMemory) -> Self {
        FormulaStop::NoMemory
    }
}

/// The formula that the tokens of a piece of a line spell, or the least fault that they have:
/// never `BadByte`, since tokens have no bad bytes.
pub fn read_tokens(alloc: Global, tokens: &[Token], atoms: &Atoms) -> Result<Formula, FormulaStop>
    ensures read { IfOk result (IsRead (names_of atoms.now) (map lexeme_of tokens.now)) }
    ensures width { IfOk result (λ formula. width_of formula ≤ length atoms.now) }
    ensures nodes { IfOk result
        (λ formula. nodes_of formula ≡ count_by is_node (map lexeme_of tokens.now)) }
    ensures stop { IfErr result (IsStop (names_of atoms.now) (map lexeme_of tokens.now)) }
{
    let symbols = symbols(alloc, tokens, atoms)?;
    let Some(depth) = run(alloc, &Depths, &symbols)? else {
        return Err(FormulaStop::BadForm);
    };
    if has_past(&symbols, atoms.len()) {
        return Err(FormulaStop::UnknownAtom);
    }
    if depth > DEPTH_LIMIT {
        return Err(FormulaStop::TooDeep);
    }
    if most_open(tokens) > OPEN_LIMIT {
        return Err(FormulaStop::TooDeep);
    }
    match run(alloc, &Formulas { alloc }, &symbols)? {
        Some(formula) => Ok(formula),
        None => unreachable!(),
    }
}

/// The formula that a text spells over the atoms, or the least of `BadByte`, `BadForm`,
/// `UnknownAtom` and `TooDeep` that it has; or `NoMemory`. A line feed or a `#` is a bad byte.
pub fn read_formula(alloc: Global, text: &[u8], atoms: &Atoms) -> Result<Formula, FormulaStop>
    ensures read { IfOk result (IsTextRead (names_of atoms.now) text.now) }
    ensures width { IfOk result (λ formula. width_of formula ≤ length atoms.now) }
    ensures nodes { IfOk result (λ formula. nodes_of formula ≤ length text.now) }
    ensures stop { IfErr result (IsTextStop (names_of atoms.now) text.now) }
{
    match tokens(alloc, text)? {
        None => Err(FormulaStop::BadByte),
        Some(tokens) => read_tokens(alloc, &tokens, atoms),
    }
}

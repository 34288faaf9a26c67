ghost use Rattle.std.specs.Prelude.{◌≡◌, IfOk, IfErr, IfSome, IfNone, false, map};
ghost use Rattle.formulas.specs.Names.{names_of};
ghost use Rattle.line_tokens.specs.Lexemes.{lexeme_of};
ghost use Rattle.formula_grammar.specs.Readings.{IsRead};
ghost use Rattle.problem_reading.specs.Faults.{IsNameFault};
ghost use Rattle.problem_reading.specs.Stops.{IsFormulaStop};

use crate::stop::{LineStop, TextKind};
use formula_grammar::{FormulaStop, read_tokens};
use formulas::{Atoms, Formula};
use line_tokens::Token;
use std::alloc::Global;

/// What is wrong with a line beside the formula that it ends in.
#[derive(Clone, Copy)]
pub struct OtherFaults {
    /// It names an agent by a reserved word.
    pub reserved: bool,
    /// It declares what was declared before.
    pub twice: bool,
    /// It passes a limit.
    pub over: bool,
}

impl OtherFaults {
    /// The least of these faults, or `None` where there is none.
    fn least(self) -> Option<TextKind>
        ensures some { IfSome result (IsNameFault self.reserved self.twice self.over) }
        ensures no_reserved { IfNone result (self.reserved ≡ false) }
        ensures not_twice { IfNone result (self.twice ≡ false) }
        ensures not_over { IfNone result (self.over ≡ false) }
    {
        if self.reserved {
            Some(TextKind::Reserved)
        } else if self.twice {
            Some(TextKind::Twice)
        } else if self.over {
            Some(TextKind::TooMany)
        } else {
            None
        }
    }
}

/// The formula of a line of which it is known what else is wrong with it; or the line's least
/// fault.
pub fn line_formula(
    alloc: Global,
    tokens: &[Token],
    atoms: &Atoms,
    other: OtherFaults,
) -> Result<Formula, LineStop>
    ensures read { IfOk result (IsRead (names_of atoms.now) (map lexeme_of tokens.now)) }
    ensures no_reserved { IfOk result (λ f. other.reserved ≡ false) }
    ensures not_twice { IfOk result (λ f. other.twice ≡ false) }
    ensures not_over { IfOk result (λ f. other.over ≡ false) }
    ensures stop { IfErr result (IsFormulaStop (names_of atoms.now) (map lexeme_of tokens.now)
        other.reserved other.twice other.over) }
{
    match read_tokens(alloc, tokens, atoms) {
        Err(FormulaStop::NoMemory) => Err(LineStop::NoMemory),
        Err(FormulaStop::BadByte) => unreachable!(),
        Err(FormulaStop::BadForm) => Err(LineStop::Fault(TextKind::BadForm)),
        Err(FormulaStop::UnknownAtom) => Err(LineStop::Fault(TextKind::UnknownAtom)),
        Err(FormulaStop::TooDeep) => match other.least() {
            Some(kind) => Err(LineStop::Fault(kind)),
            None => Err(LineStop::Fault(TextKind::TooDeep)),
        },
        Ok(formula) => match other.least() {
            Some(kind) => Err(LineStop::Fault(kind)),
            None => Ok(formula),
        },
    }
}

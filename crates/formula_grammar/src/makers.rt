ghost use Rattle.std.specs.Prelude.{◌≡◌, IfOk};
ghost use Rattle.formula_grammar.specs.Makers.{formula_of, capped_depth};

use crate::stack::{Maker, Part};
use edge::NoMemory;
use formulas::{DEPTH_LIMIT, Formula};
use std::alloc::Global;

/// Makes the formula.
#[derive(Drop)]
pub struct Formulas {
    /// Where the parts of formulas are put.
    pub alloc: Global,
}

impl Maker<Formula> for Formulas {
    ghost made = { formula_of };

    fn make(&self, part: Part<Formula>) -> Result<Formula, NoMemory>
        ensures { IfOk result (λ value. value ≡ formula_of part) }
    {
        let alloc = self.alloc;
        match part {
            Part::Top => Ok(Formula::Top),
            Part::Bottom => Ok(Formula::Bottom),
            Part::Atom(atom) => Ok(Formula::Atom(atom)),
            Part::Not(child) => Formula::negation(alloc, child),
            Part::And(left, right) => Formula::conjunction(alloc, left, right),
            Part::Or(left, right) => Formula::disjunction(alloc, left, right),
            Part::Implies(left, right) => Formula::implication(alloc, left, right),
            Part::Iff(left, right) => Formula::equivalence(alloc, left, right),
        }
    }
}

/// Makes the formula's depth, counted up to one past the limit, and so never a formula that is too
/// deep to drop.
#[derive(Drop)]
pub struct Depths;

impl Maker<u8> for Depths {
    ghost made = { capped_depth };

    fn make(&self, part: Part<u8>) -> Result<u8, NoMemory>
        ensures { IfOk result (λ value. value ≡ capped_depth part) }
    {
        Ok(match part {
            Part::Top | Part::Bottom | Part::Atom(_) => 1,
            Part::Not(child) => child.min(DEPTH_LIMIT) + 1,
            Part::And(left, right)
            | Part::Or(left, right)
            | Part::Implies(left, right)
            | Part::Iff(left, right) => left.max(right).min(DEPTH_LIMIT) + 1,
        })
    }
}

ghost use Rattle.std.specs.Prelude.{◌≡◌, ◌<◌, ◌≤◌, ◌^◌, IfOk, length};
ghost use Rattle.formulas.specs.Formulas.{nodes_of, depth_of, holds, width_of};
ghost use Rattle.formulas.specs.declared.formula.Formula.TheVariants.{Not, And, Or, Implies, Iff};

use crate::Valuation;
use edge::NoMemory;
use sqlite_items::Boxed;
use std::alloc::Global;

/// A propositional formula over numbered atoms.
#[derive(Drop, Debug)]
pub enum Formula {
    /// The constant true.
    Top,
    /// The constant false.
    Bottom,
    /// An atom, by its number from 0 on.
    Atom(u32),
    /// The negation.
    Not(Boxed<Formula>),
    /// Both hold.
    And(Boxed<Formula>, Boxed<Formula>),
    /// At least one holds.
    Or(Boxed<Formula>, Boxed<Formula>),
    /// The second holds where the first does.
    Implies(Boxed<Formula>, Boxed<Formula>),
    /// Both hold or neither does.
    Iff(Boxed<Formula>, Boxed<Formula>),
}

impl Formula {
    /// Whether the formula is true at the valuation, which has each of its atoms.
    pub fn holds(&self, at: &Valuation) -> bool
        requires { width_of self.now ≤ length at.now }
        ensures { result ≡ holds self.now at.now }
    {
        match self {
            Formula::Top => true,
            Formula::Bottom => false,
            Formula::Atom(atom) => at.get(*atom),
            Formula::Not(child) => !child.get().holds(at),
            Formula::And(left, right) => left.get().holds(at) && right.get().holds(at),
            Formula::Or(left, right) => left.get().holds(at) || right.get().holds(at),
            Formula::Implies(left, right) => !left.get().holds(at) || right.get().holds(at),
            Formula::Iff(left, right) => left.get().holds(at) == right.get().holds(at),
        }
    }

    /// The number of its constants, atom occurrences and connectives.
    pub fn nodes(&self) -> u64
        requires { nodes_of self.now < 2 ^ 63 }
        ensures { result ≡ nodes_of self.now }
    {
        match self {
            Formula::Top | Formula::Bottom | Formula::Atom(_) => 1,
            Formula::Not(child) => child.get().nodes() + 1,
            Formula::And(left, right)
            | Formula::Or(left, right)
            | Formula::Implies(left, right)
            | Formula::Iff(left, right) => left.get().nodes() + right.get().nodes() + 1,
        }
    }

    /// 1 for a constant or an atom, else one more than the depth of its deepest child.
    pub fn depth(&self) -> u64
        requires { nodes_of self.now < 2 ^ 63 }
        ensures depth { result ≡ depth_of self.now }
        ensures at_most { result ≤ nodes_of self.now }
    {
        match self {
            Formula::Top | Formula::Bottom | Formula::Atom(_) => 1,
            Formula::Not(child) => child.get().depth() + 1,
            Formula::And(left, right)
            | Formula::Or(left, right)
            | Formula::Implies(left, right)
            | Formula::Iff(left, right) => left.get().depth().max(right.get().depth()) + 1,
        }
    }

    /// An equal formula in memory of its own; `NoMemory` for want of it.
    pub fn copy(&self, alloc: Global) -> Result<Formula, NoMemory>
        ensures { IfOk result (λ copied. copied ≡ self.now) }
    {
        match self {
            Formula::Top => Ok(Formula::Top),
            Formula::Bottom => Ok(Formula::Bottom),
            Formula::Atom(atom) => Ok(Formula::Atom(*atom)),
            Formula::Not(child) => {
                let child = child.get().copy(alloc)?;
                Formula::negation(alloc, child)
            }
            Formula::And(left, right) => {
                let left = left.get().copy(alloc)?;
                let right = right.get().copy(alloc)?;
                Formula::conjunction(alloc, left, right)
            }
            Formula::Or(left, right) => {
                let left = left.get().copy(alloc)?;
                let right = right.get().copy(alloc)?;
                Formula::disjunction(alloc, left, right)
            }
            Formula::Implies(left, right) => {
                let left = left.get().copy(alloc)?;
                let right = right.get().copy(alloc)?;
                Formula::implication(alloc, left, right)
            }
            Formula::Iff(left, right) => {
                let left = left.get().copy(alloc)?;
                let right = right.get().copy(alloc)?;
                Formula::equivalence(alloc, left, right)
            }
        }
    }

    /// The negation of a formula; `NoMemory` for want of it.
    pub fn negation(alloc: Global, child: Formula) -> Result<Formula, NoMemory>
        ensures { IfOk result (λ built. built ≡ Not child) }
    {
        Ok(Formula::Not(Boxed::new(alloc, child)?))
    }

    /// The formula that both hold; `NoMemory` for want of it.
    pub fn conjunction(alloc: Global, left: Formula, right: Formula) -> Result<Formula, NoMemory>
        ensures { IfOk result (λ built. built ≡ And left right) }
    {
        Ok(Formula::And(Boxed::new(alloc, left)?, Boxed::new(alloc, right)?))
    }

    /// The formula that at least one holds; `NoMemory` for want of it.
    pub fn disjunction(alloc: Global, left: Formula, right: Formula) -> Result<Formula, NoMemory>
        ensures { IfOk result (λ built. built ≡ Or left right) }
    {
        Ok(Formula::Or(Boxed::new(alloc, left)?, Boxed::new(alloc, right)?))
    }

    /// The formula that the right one holds where the left one does; `NoMemory` for want of it.
    pub fn implication(alloc: Global, left: Formula, right: Formula) -> Result<Formula, NoMemory>
        ensures { IfOk result (λ built. built ≡ Implies left right) }
    {
        Ok(Formula::Implies(Boxed::new(alloc, left)?, Boxed::new(alloc, right)?))
    }

    /// The formula that both hold or neither does; `NoMemory` for want of it.
    pub fn equivalence(alloc: Global, left: Formula, right: Formula) -> Result<Formula, NoMemory>
        ensures { IfOk result (λ built. built ≡ Iff left right) }
    {
        Ok(Formula::Iff(Boxed::new(alloc, left)?, Boxed::new(alloc, right)?))
    }
}

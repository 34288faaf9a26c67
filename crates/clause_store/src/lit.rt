//! A literal: a variable with a sign.
ghost use Rattle.std.specs.Prelude.{◌≡◌};
ghost use Rattle.std.proofs.Common.{rules};
ghost use Rattle.std.specs.Cmp.{partial_order_from_own_ties};
ghost use Rattle.std.specs.Cmp.Rules.{comparing};
ghost use Rattle.std.specs.Ordering.{nat_cmp, on, as_partial_cmp};
ghost use Rattle.clause_store.specs.Lits.{rank_of};
ghost use Rattle.clause_store.specs.LitOrder.{rank_ties};

use std::cmp::Ordering;

/// A variable with a sign. Variables count from 1; the calls that take literals require it.
#[derive(Clone, Copy, Debug, Default, PartialEq, Eq)]
pub struct Lit {
    /// The variable, counted from 1.
    pub var: u32,
    /// Whether the literal is true where its variable is.
    pub positive: bool,
}

/// By rank.
impl Ord for Lit {
    ghost cmp = { on rank_of nat_cmp };

    ghost total = { Prim.search (comparing, rules) };

    ghost matches_partial_cmp = { Prim.search (comparing, rules) };

    ghost matches_eq = { rank_ties };

    fn cmp(&self, other: &Lit) -> Ordering {
        self.rank().cmp(&other.rank())
    }
}

impl PartialOrd for Lit {
    ghost partial_cmp = { as_partial_cmp (on rank_of nat_cmp) };

    ghost laws = { partial_order_from_own_ties (Prim.search (comparing, rules)) rank_ties };

    fn partial_cmp(&self, other: &Lit) -> Option<Ordering> {
        Some(self.cmp(other))
    }
}

impl Lit {
    ghost use Rattle.clause_store.specs.Lits.{negated, negative_lit, positive_lit};

    /// The literal that is true where the variable is.
    #[inline]
    pub fn positive(var: u32) -> Lit
        ensures { result ≡ positive_lit var }
    {
        Lit {
            var,
            positive: true,
        }
    }

    /// The literal that is true where the variable is false.
    #[inline]
    pub fn negative(var: u32) -> Lit
        ensures { result ≡ negative_lit var }
    {
        Lit {
            var,
            positive: false,
        }
    }

    /// A number that orders the literals: by variable, positive first.
    #[inline]
    pub fn rank(self) -> u64
        ensures { result ≡ rank_of self }
    {
        2 * u64::from(self.var) + if self.positive { 0 } else { 1 }
    }

    /// The literal of the same variable with the other sign.
    #[inline]
    pub fn negated(self) -> Lit
        ensures { result ≡ negated self }
    {
        Lit {
            var: self.var,
            positive: !self.positive,
        }
    }
}

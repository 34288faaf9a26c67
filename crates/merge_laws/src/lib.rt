//! The merging postulates of Konieczny and Pino Pérez, of every distance and every aggregator.
//!
//! Each law is the contract of a function that does nothing. M(c,E) stands for the closest
//! valuations for the constraint c and the list E of bases, over 1 to 64 atoms: `merging` of the
//! specs.
#![tactic(auto)]

ghost use Rattle.merge_laws.specs.Operators.{merging};
ghost use Rattle.merge_laws.specs.Postulates.{KeepsTheConstraint, HasAMember, IsConjunction};
ghost use Rattle.merge_laws.specs.Postulates.{IgnoresWording, IsFair, KeepsAgreement};
ghost use Rattle.merge_laws.specs.Postulates.{KeepsToAgreement, KeepsUnderMore, KeepsToUnderMore};

use merge_model::{Aggregator, Distance, StrictAggregator};

/// IC0: each member of M(c,E) satisfies c.
pub fn ic0<D: Distance, A: Aggregator>(distance: &D, aggregator: &A)
    ensures { KeepsTheConstraint (merging (D.dist distance.now) (A.rank aggregator.now)) }
{}

/// IC1: where c has a model and each base has one, M(c,E) has a member.
pub fn ic1<D: Distance, A: Aggregator>(distance: &D, aggregator: &A)
    ensures { HasAMember (merging (D.dist distance.now) (A.rank aggregator.now)) }
{}

/// IC2: where a valuation satisfies c and every base, M(c,E) has exactly those that do.
pub fn ic2<D: Distance, A: Aggregator>(distance: &D, aggregator: &A)
    ensures { IsConjunction (merging (D.dist distance.now) (A.rank aggregator.now)) }
{}

/// IC3: formulas with the same models, and bases in another order, have the same M(c,E).
pub fn ic3<D: Distance, A: Aggregator>(distance: &D, aggregator: &A)
    ensures { IgnoresWording (merging (D.dist distance.now) (A.rank aggregator.now)) }
{}

/// IC4: where two bases k and l have their models among those of c, and a member of M(c,[k,l])
/// satisfies k, a member satisfies l.
pub fn ic4<D: Distance, A: Aggregator>(distance: &D, aggregator: &A)
    ensures { IsFair (merging (D.dist distance.now) (A.rank aggregator.now)) }
{}

/// IC5: what is in M(c,E) and in M(c,F) is in M(c,E++F).
pub fn ic5<D: Distance, A: Aggregator>(distance: &D, aggregator: &A)
    ensures { KeepsAgreement (merging (D.dist distance.now) (A.rank aggregator.now)) }
{}

/// IC6: where something is in M(c,E) and in M(c,F), what is in M(c,E++F) is in both.
pub fn ic6<D: Distance, A: StrictAggregator>(distance: &D, aggregator: &A)
    ensures { KeepsToAgreement (merging (D.dist distance.now) (A.rank aggregator.now)) }
{}

/// IC7: what is in M(c,E) and satisfies d is in M(c & d,E).
pub fn ic7<D: Distance, A: Aggregator>(distance: &D, aggregator: &A)
    ensures { KeepsUnderMore (merging (D.dist distance.now) (A.rank aggregator.now)) }
{}

/// IC8: where something in M(c,E) satisfies d, what is in M(c & d,E) is in M(c,E).
pub fn ic8<D: Distance, A: Aggregator>(distance: &D, aggregator: &A)
    ensures { KeepsToUnderMore (merging (D.dist distance.now) (A.rank aggregator.now)) }
{}

//! What searches about small problems answer where memory is ample.
use crate::questions::{
    best_about, closest_about, consistency_about, distances_about, is_yes_about,
    stop_after_one_step,
};
use distance_search::{Away, Best, Consistency, Named, SearchStop};
use formulas::Valuation;
use merge_model::{Hamming, Leximax, Max, Sum};
use std::alloc::Global;
use std::test::Fail;

/// An agent whose only model the constraint excludes.
const ONE_AGENT: &str = "atoms a\nconstraint !a\nagent p : a\nask !a\n";

/// Three agents of whom two contradict each other: no model is at distance 0 from both.
const CONTRADICTING: &str = "atoms a b\nagent p : a\nagent q : !a\nagent r : b\nask b\n";

/// Two agents that differ on the second atom alone.
const NEARLY_AGREED: &str = "atoms a b\nagent p : a & b\nagent q : a & !b\nask a\n";

/// A constraint that is never true.
const NEVER: &str =
    "atoms a b\nconstraint (a | b) & (a | !b) & (!a | b) & (!a | !b)\nagent p : a\n";

fn names_the_only_models(found: &Consistency) -> bool {
    is_named(&found.constraint, Valuation::new(0, 1))
        && matches!(found.agents.as_slice(), [agent] if is_named(agent, Valuation::new(1, 1)))
}

fn is_named(named: &Named, model: Valuation) -> bool {
    matches!(named, Named::Model(found) if *found == model)
}

#[test]
fn the_only_model_of_each_formula_is_named(rt: HostRuntime) -> Result<(), Fail> {
    let found = consistency_about(rt.alloc(), ONE_AGENT, Hamming, Sum);
    assert!(rt; matches!(&found, Some(found) if names_the_only_models(found)));
    Ok(())
}

fn is_at_one_from_the_agent(best: &Best) -> bool {
    best.shown.model == Valuation::new(0, 1)
        && matches!(best.shown.vector.as_slice(), [1])
        && matches!(best.shown.nearest.as_slice(), [own] if *own == Valuation::new(1, 1))
        && matches!(best.measure.as_slice(), [1])
        && matches!(best.values.as_slice(), [1])
        && matches!(best.far.as_slice(), [Some(_)])
        && matches!(best.least.as_slice(), [Some(_)])
}

#[test]
fn one_agent_against_the_constraint(rt: HostRuntime) -> Result<(), Fail> {
    let best = best_about(rt.alloc(), ONE_AGENT, Hamming, Sum);
    assert!(rt; matches!(&best, Some(best) if is_at_one_from_the_agent(best)));
    Ok(())
}

#[test]
fn every_closest_model_satisfies_the_query(rt: HostRuntime) -> Result<(), Fail> {
    let yes = is_yes_about(rt.alloc(), ONE_AGENT, Hamming, Sum);
    assert_eq!(rt; yes, Some(true));
    Ok(())
}

/// Each valuation is at 1 from `p` or from `q`, so all four are closest, and at 0 from `r` where it
/// satisfies `b`.
fn is_at_one_at_most(best: &Best) -> bool {
    let satisfies_third = best.shown.model.bits % 2 == 1;
    matches!(best.measure.as_slice(), [1])
        && matches!(best.values.as_slice(), [1])
        && matches!(best.shown.vector.as_slice(), [_, _, third]
            if *third == u32::from(!satisfies_third))
        && matches!(best.far.as_slice(), [_, _, far] if far.is_none() == satisfies_third)
}

#[test]
fn a_best_model_under_the_greatest_distance(rt: HostRuntime) -> Result<(), Fail> {
    let best = best_about(rt.alloc(), CONTRADICTING, Hamming, Max);
    assert!(rt; matches!(&best, Some(best) if is_at_one_at_most(best)));
    Ok(())
}

#[test]
fn a_question_spends_a_budget_of_one_step(rt: HostRuntime) -> Result<(), Fail> {
    let spent = stop_after_one_step(rt.alloc(), NEVER, Hamming, Sum);
    assert_eq!(rt; spent, Some((SearchStop::GaveUp(61), 2, 62)));
    Ok(())
}

fn closest_of_nearly_agreed(alloc: Global, prefix: &[bool]) -> Option<Option<Valuation>> {
    closest_about(alloc, NEARLY_AGREED, Hamming, Leximax, prefix)
}

#[test]
fn closest_models_begin_with_given_values(rt: HostRuntime) -> Result<(), Fail> {
    let alloc = rt.alloc();
    let both = closest_of_nearly_agreed(alloc, &[true, true]);
    assert_eq!(rt; both, Some(Some(Valuation::new(3, 2))));
    let first = closest_of_nearly_agreed(alloc, &[true, false]);
    assert_eq!(rt; first, Some(Some(Valuation::new(2, 2))));
    let neither = closest_of_nearly_agreed(alloc, &[false]);
    assert_eq!(rt; neither, Some(None));
    Ok(())
}

/// Whether these distances are from the models of the two agents of `NEARLY_AGREED`.
fn are_from_nearly_agreed(away: &Away) -> bool {
    let nearest = [Valuation::new(3, 2), Valuation::new(2, 2)];
    away.shown.nearest.as_slice() == nearest.as_slice()
}

#[test]
fn distances_of_a_model_that_is_not_closest(rt: HostRuntime) -> Result<(), Fail> {
    let away = distances_about(rt.alloc(), NEARLY_AGREED, Hamming, Sum, 1);
    assert!(rt;
        matches!(&away, Some(away) if are_from_nearly_agreed(away)
        && away.shown.model == Valuation::new(1, 2)
        && matches!(away.shown.vector.as_slice(), [1, 2])
        && matches!(away.far.as_slice(), [Some(_), Some(_)]))
    );
    Ok(())
}

#[test]
fn distances_of_a_closest_model(rt: HostRuntime) -> Result<(), Fail> {
    let away = distances_about(rt.alloc(), NEARLY_AGREED, Hamming, Sum, 3);
    assert!(rt;
        matches!(&away, Some(away) if are_from_nearly_agreed(away)
        && away.shown.model == Valuation::new(3, 2)
        && matches!(away.shown.vector.as_slice(), [0, 1])
        && matches!(away.far.as_slice(), [None, Some(_)]))
    );
    Ok(())
}

//! Which formulas have models.
ghost use Rattle.std.specs.Prelude.{◌<◌, length, MatchResult};
ghost use Rattle.cdcl_core.specs.Replies.{IsLonger};
ghost use Rattle.merge_encoding.specs.Claims.{NoModelOfConstraint, NoModelOfBase, base_at};
ghost use Rattle.distance_search.specs.Setting.{IsOver};
ghost use Rattle.distance_search.specs.Heard.{IsHalted};
ghost use Rattle.distance_search.specs.Results.{IsNamedBy, IsConsistency};

use crate::answer::{Consistency, Named};
use crate::asking::Questions;
use crate::engine::Engine;
use crate::reply::{Reply, SearchStop};
use merge_encoding::Claim;
use merge_model::Sequence;
use std::alloc::Global;

/// A model of the constraint, or the step that shows that it has none. One question.
fn name_constraint<Q: Questions>(
    alloc: Global,
    questions: &Q,
    engine: &mut Engine,
) -> Result<Named, SearchStop>
    requires main { IsOver (Q.setting questions.now) engine.old.log }
    ensures main { IsOver (Q.setting questions.now) engine.new.log }
    ensures longer { IsLonger engine.old.log engine.new.log }
    ensures answer { MatchResult result
        (λ r. IsNamedBy (Q.setting questions.now) engine.new.log
        (Q.setting questions.now).profile.constraint NoModelOfConstraint r)
        (λ stop. IsHalted engine.old.log engine.new.log (Q.budget questions.now) stop) }
{
    match questions.ask(alloc, engine, &Claim::NoModelOfConstraint)? {
        Reply::Refuted(step) => Ok(Named::Empty(step)),
        Reply::Found(witness) => Ok(Named::Model(witness.shared)),
    }
}

/// A model of a base, or the step that shows that it has none. One question.
fn name_base<Q: Questions>(
    alloc: Global,
    questions: &Q,
    engine: &mut Engine,
    agent: usize,
) -> Result<Named, SearchStop>
    requires main { IsOver (Q.setting questions.now) engine.old.log }
    requires agent { agent < length (Q.setting questions.now).profile.bases }
    ensures main { IsOver (Q.setting questions.now) engine.new.log }
    ensures longer { IsLonger engine.old.log engine.new.log }
    ensures answer { MatchResult result
        (λ r. IsNamedBy (Q.setting questions.now) engine.new.log
        (base_at (Q.setting questions.now).profile agent) (NoModelOfBase agent) r)
        (λ stop. IsHalted engine.old.log engine.new.log (Q.budget questions.now) stop) }
{
    match questions.ask(alloc, engine, &Claim::NoModelOfBase(agent))? {
        Reply::Refuted(step) => Ok(Named::Empty(step)),
        Reply::Found(witness) => Ok(Named::Model(witness.own[agent])),
    }
}

/// A model of the constraint and of each base, or the step that shows that there is none. One
/// question for each.
pub fn consistency<Q: Questions>(
    alloc: Global,
    questions: &Q,
    engine: &mut Engine,
) -> Result<Consistency, SearchStop>
    requires main { IsOver (Q.setting questions.now) engine.old.log }
    ensures main { IsOver (Q.setting questions.now) engine.new.log }
    ensures longer { IsLonger engine.old.log engine.new.log }
    ensures answer { MatchResult result
        (λ r. IsConsistency (Q.setting questions.now) engine.new.log r)
        (λ stop. IsHalted engine.old.log engine.new.log (Q.budget questions.now) stop) }
{
    let constraint = name_constraint(alloc, questions, engine)?;
    let mut agents = Vec::new(alloc);
    for agent in 0..questions.frame().copies.len() {
        let named = name_base(alloc, questions, engine, agent)?;
        agents.push(named)?;
    }
    Ok(Consistency {
        constraint,
        agents: Sequence::from_vec(agents),
    })
}

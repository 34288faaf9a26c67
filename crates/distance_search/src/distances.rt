//! The exact distances of a model.
ghost use Rattle.std.specs.Prelude.{◌≡◌, ◌<◌, length, All, MatchResult};
ghost use Rattle.std.specs.List.{AllZip};
ghost use Rattle.cdcl_core.specs.Replies.{IsLonger};
ghost use Rattle.merge_model.specs.Merging.{IsModel, HasModel};
ghost use Rattle.merge_encoding.specs.Claims.{base_at};
ghost use Rattle.distance_search.specs.Setting.{IsOver};
ghost use Rattle.distance_search.specs.Heard.{IsHalted};
ghost use Rattle.distance_search.specs.Results.{IsAway};
ghost use Rattle.distance_search.specs.Turns.{IsNearest};

use crate::answer::Away;
use crate::asking::Questions;
use crate::engine::Engine;
use crate::reply::{Reply, SearchStop};
use formulas::Valuation;
use merge_encoding::Claim;
use merge_model::{Sequence, Shown};
use std::alloc::Global;

/// A nearest model of a base, and the step that shows that none is nearer; no step at a distance of
/// 0.
#[derive(Drop)]
pub struct Nearest {
    /// The model.
    pub valuation: Valuation,
    /// Its distance.
    pub distance: u32,
    /// The number of the step.
    pub step: Option<u64>,
}

/// Lowers the distance of a model of a base until none is nearer.
pub fn lower_distance<Q: Questions>(
    alloc: Global,
    questions: &Q,
    engine: &mut Engine,
    model: Valuation,
    agent: usize,
    start: Valuation,
) -> Result<Nearest, SearchStop>
    requires main { IsOver (Q.setting questions.now) engine.old.log }
    requires agent { agent < length (Q.setting questions.now).profile.bases }
    requires sized { length model ≡ (Q.setting questions.now).profile.atoms }
    requires start { IsModel (Q.setting questions.now).profile.atoms
        (base_at (Q.setting questions.now).profile agent) start }
    ensures main { IsOver (Q.setting questions.now) engine.new.log }
    ensures longer { IsLonger engine.old.log engine.new.log }
    ensures answer { MatchResult result
        (λ r. IsNearest
        (Q.setting questions.now) engine.new.log model agent r.distance r.valuation r.step)
        (λ stop. IsHalted engine.old.log engine.new.log (Q.budget questions.now) stop) }
{
    let mut valuation = start;
    let mut distance = questions.between(model, start);
    while distance > 0 {
        match questions.ask(alloc, engine, &Claim::NoNearer(agent, model, distance))? {
            Reply::Refuted(step) => {
                return Ok(Nearest {
                    valuation,
                    distance,
                    step: Some(step),
                });
            }
            Reply::Found(witness) => {
                valuation = witness.own[agent];
                distance = questions.between(model, valuation);
            }
        }
    }
    Ok(Nearest {
        valuation,
        distance,
        step: None,
    })
}

/// The exact distances of a model, from a model of each base.
pub fn away_from<Q: Questions>(
    alloc: Global,
    questions: &Q,
    engine: &mut Engine,
    model: Valuation,
    starts: &[Valuation],
) -> Result<Away, SearchStop>
    requires main { IsOver (Q.setting questions.now) engine.old.log }
    requires sized { length model ≡ (Q.setting questions.now).profile.atoms }
    requires starts { AllZip (IsModel (Q.setting questions.now).profile.atoms)
        (Q.setting questions.now).profile.bases starts.now }
    ensures main { IsOver (Q.setting questions.now) engine.new.log }
    ensures longer { IsLonger engine.old.log engine.new.log }
    ensures answer { MatchResult result
        (λ r. IsAway (Q.setting questions.now) engine.new.log r × (r.shown.model ≡ model))
        (λ stop. IsHalted engine.old.log engine.new.log (Q.budget questions.now) stop) }
{
    let mut vector = Vec::new(alloc);
    let mut nearest = Vec::new(alloc);
    let mut far = Vec::new(alloc);
    for (agent, start) in starts.iter().enumerate() {
        let found = lower_distance(alloc, questions, engine, model, agent, *start)?;
        vector.push(found.distance)?;
        nearest.push(found.valuation)?;
        far.push(found.step)?;
    }
    Ok(Away {
        shown: Shown {
            model,
            vector: Sequence::from_vec(vector),
            nearest: Sequence::from_vec(nearest),
        },
        far: Sequence::from_vec(far),
    })
}

/// A model of a base that has one. One question.
fn base_model<Q: Questions>(
    alloc: Global,
    questions: &Q,
    engine: &mut Engine,
    agent: usize,
) -> Result<Valuation, SearchStop>
    requires main { IsOver (Q.setting questions.now) engine.old.log }
    requires agent { agent < length (Q.setting questions.now).profile.bases }
    requires bases { All (HasModel (Q.setting questions.now).profile.atoms)
        (Q.setting questions.now).profile.bases }
    ensures main { IsOver (Q.setting questions.now) engine.new.log }
    ensures longer { IsLonger engine.old.log engine.new.log }
    ensures answer { MatchResult result
        (λ v. IsModel (Q.setting questions.now).profile.atoms
        (base_at (Q.setting questions.now).profile agent) v)
        (λ stop. IsHalted engine.old.log engine.new.log (Q.budget questions.now) stop) }
{
    match questions.ask(alloc, engine, &Claim::NoModelOfBase(agent))? {
        Reply::Refuted(_) => unreachable!(),
        Reply::Found(witness) => Ok(witness.own[agent]),
    }
}

/// A model of each base, where each has one. One question for each.
fn base_models<Q: Questions>(
    alloc: Global,
    questions: &Q,
    engine: &mut Engine,
) -> Result<Vec<Valuation>, SearchStop>
    requires main { IsOver (Q.setting questions.now) engine.old.log }
    requires bases { All (HasModel (Q.setting questions.now).profile.atoms)
        (Q.setting questions.now).profile.bases }
    ensures main { IsOver (Q.setting questions.now) engine.new.log }
    ensures longer { IsLonger engine.old.log engine.new.log }
    ensures answer { MatchResult result
        (λ models. AllZip (IsModel (Q.setting questions.now).profile.atoms)
        (Q.setting questions.now).profile.bases models.items)
        (λ stop. IsHalted engine.old.log engine.new.log (Q.budget questions.now) stop) }
{
    let mut models = Vec::new(alloc);
    for agent in 0..questions.frame().copies.len() {
        let model = base_model(alloc, questions, engine, agent)?;
        models.push(model)?;
    }
    Ok(models)
}

/// The exact distances of a valuation, where each base has a model.
pub fn distances_of<Q: Questions>(
    alloc: Global,
    questions: &Q,
    engine: &mut Engine,
    model: Valuation,
) -> Result<Away, SearchStop>
    requires main { IsOver (Q.setting questions.now) engine.old.log }
    requires sized { length model ≡ (Q.setting questions.now).profile.atoms }
    requires bases { All (HasModel (Q.setting questions.now).profile.atoms)
        (Q.setting questions.now).profile.bases }
    ensures main { IsOver (Q.setting questions.now) engine.new.log }
    ensures longer { IsLonger engine.old.log engine.new.log }
    ensures answer { MatchResult result
        (λ r. IsAway (Q.setting questions.now) engine.new.log r × (r.shown.model ≡ model))
        (λ stop. IsHalted engine.old.log engine.new.log (Q.budget questions.now) stop) }
{
    let starts = base_models(alloc, questions, engine)?;
    away_from(alloc, questions, engine, model, starts.as_slice())
}

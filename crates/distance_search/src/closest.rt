//! A closest model, and what every closest model satisfies.
ghost use Rattle.std.specs.Prelude.{◌<◌, ◌≤◌, length, MatchResult};
ghost use Rattle.cdcl_core.specs.Replies.{IsLonger};
ghost use Rattle.distance_search.specs.Setting.{IsOver};
ghost use Rattle.distance_search.specs.Heard.{IsHalted};
ghost use Rattle.distance_search.specs.Results.{IsConsistent, IsBestFor, IsBest, IsJudged, IsWith};

use crate::answer::{Away, Best, Entails};
use crate::asking::Questions;
use crate::distances::away_from;
use crate::engine::Engine;
use crate::level::{LeastLevels, first, lower_all};
use crate::question::{ask_breaker, ask_with};
use crate::reply::{Reply, SearchStop, Witness};
use formulas::Valuation;
use merge_model::Sequence;
use std::alloc::Global;

/// A closest model, with all that shows it, where the constraint and each base have a model.
pub fn best<Q: Questions>(
    alloc: Global,
    questions: &Q,
    engine: &mut Engine,
) -> Result<Best, SearchStop>
    requires main { IsOver (Q.setting questions.now) engine.old.log }
    requires consistent { IsConsistent (Q.setting questions.now) }
    ensures main { IsOver (Q.setting questions.now) engine.new.log }
    ensures longer { IsLonger engine.old.log engine.new.log }
    ensures answer { MatchResult result
        (λ r. IsBest (Q.setting questions.now) engine.new.log r)
        (λ stop. IsHalted engine.old.log engine.new.log (Q.budget questions.now) stop) }
{
    let start = first(alloc, questions, engine)?;
    let LeastLevels { witness, steps } = lower_all(alloc, questions, engine, start)?;
    let Witness {
        shared,
        own,
        values,
    } = witness;
    let Away { shown, far } = away_from(alloc, questions, engine, shared, own.as_slice())?;
    let measure = questions.measure(alloc, shown.vector.as_slice())?;
    Ok(Best {
        shown,
        measure: Sequence::from_vec(measure),
        values: Sequence::from_vec(values),
        far,
        least: Sequence::from_vec(steps),
    })
}

/// Whether every closest model satisfies a query; `best` is a best answer.
pub fn entails<Q: Questions>(
    alloc: Global,
    questions: &Q,
    engine: &mut Engine,
    best: &Best,
    ask: usize,
) -> Result<Entails, SearchStop>
    requires main { IsOver (Q.setting questions.now) engine.old.log }
    requires ask { ask < length (Q.setting questions.now).asks }
    requires best { IsBestFor (Q.setting questions.now) best.now }
    ensures main { IsOver (Q.setting questions.now) engine.new.log }
    ensures longer { IsLonger engine.old.log engine.new.log }
    ensures answer { MatchResult result
        (λ r. IsJudged (Q.setting questions.now) engine.new.log ask best.now.values r)
        (λ stop. IsHalted engine.old.log engine.new.log (Q.budget questions.now) stop) }
{
    match ask_breaker(alloc, questions, engine, ask, best.values.as_slice())? {
        Reply::Refuted(step) => Ok(Entails::Yes(step)),
        Reply::Found(witness) => {
            let away = away_from(
                alloc,
                questions,
                engine,
                witness.shared,
                witness.own.as_slice(),
            )?;
            Ok(Entails::No(away))
        }
    }
}

/// A closest model that begins with the prefix, if there is one; `best` is a best answer. One
/// question.
pub fn closest_with<Q: Questions>(
    alloc: Global,
    questions: &Q,
    engine: &mut Engine,
    best: &Best,
    prefix: &[bool],
) -> Result<Option<Valuation>, SearchStop>
    requires main { IsOver (Q.setting questions.now) engine.old.log }
    requires prefix { length prefix.now ≤ (Q.setting questions.now).profile.atoms }
    requires best { IsBestFor (Q.setting questions.now) best.now }
    ensures main { IsOver (Q.setting questions.now) engine.new.log }
    ensures longer { IsLonger engine.old.log engine.new.log }
    ensures answer { MatchResult result
        (λ r. IsWith (Q.setting questions.now) prefix.now r)
        (λ stop. IsHalted engine.old.log engine.new.log (Q.budget questions.now) stop) }
{
    match ask_with(alloc, questions, engine, best.values.as_slice(), prefix)? {
        Reply::Refuted(_) => Ok(None),
        Reply::Found(witness) => Ok(Some(witness.shared)),
    }
}

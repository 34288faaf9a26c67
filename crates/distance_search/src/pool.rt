//! Closest models at hand, which answer the queries that they break.
ghost use Rattle.std.specs.Prelude.{◌≡◌, ℕ, ◌<◌, List, length, IfOk, IfSome, MatchResult};
ghost use Rattle.cdcl_core.specs.Replies.{IsLonger};
ghost use Rattle.distance_search.specs.AtHand.{AreAtHand, IsKept};
ghost use Rattle.distance_search.specs.Heard.{IsHalted};
ghost use Rattle.distance_search.specs.Results.{IsConsistent, IsBestFor, IsBest, IsJudged};
ghost use Rattle.distance_search.specs.Setting.{IsOver};
ghost use Rattle.distance_search.specs.declared.answer.Entails.TheVariants.{No as BrokenBy};

use crate::answer::{Away, Best, Entails};
use crate::asking::Questions;
use crate::closest;
use crate::engine::Engine;
use crate::reply::SearchStop;
use edge::NoMemory;
use merge_model::{Sequence, Shown};
use std::alloc::Global;

/// At most so many models are at hand, since each is tried on each query.
const POOL_LIMIT: usize = 16;

/// A copy of a model with its distances; `NoMemory` for want of memory.
fn copied(alloc: Global, shown: &Shown, far: &[Option<u64>]) -> Result<Away, NoMemory>
    ensures { IfOk result (λ copy. copy ≡ record { shown = shown.now; far = far.now }) }
{
    let vector = shown.vector.as_slice().to_vec(alloc)?;
    let nearest = shown.nearest.as_slice().to_vec(alloc)?;
    let steps = far.to_vec(alloc)?;
    Ok(Away {
        shown: Shown {
            model: shown.model,
            vector: Sequence::from_vec(vector),
            nearest: Sequence::from_vec(nearest),
        },
        far: Sequence::from_vec(steps),
    })
}

/// Keeps a model while there is room; `NoMemory` for want of memory.
fn keep(pool: &mut Vec<Away>, away: Away) -> Result<(), NoMemory>
    ensures { IsKept pool.old.items away pool.new.items }
{
    if pool.len() < POOL_LIMIT {
        pool.push(away)?;
    }
    Ok(())
}

/// A model at hand that does not satisfy a query, if there is one; `NoMemory` for want of memory.
fn breaker_at_hand<Q: Questions>(
    alloc: Global,
    questions: &Q,
    engine: &Engine,
    pool: &[Away],
    ask: usize,
) -> Result<Option<Away>, NoMemory>
    requires ask { ask < length (Q.setting questions.now).asks }
    requires pool { AreAtHand (Q.setting questions.now) engine.now.log pool.now }
    ensures { (values : List ℕ) → IfOk result (λ found. IfSome found (λ away.
        IsJudged (Q.setting questions.now) engine.now.log ask values (BrokenBy away))) }
{
    for away in pool {
        if !questions.satisfies(away.shown.model, ask) {
            let breaker = copied(alloc, &away.shown, away.far.as_slice())?;
            return Ok(Some(breaker));
        }
    }
    Ok(None)
}

/// A closest model, with all that shows it, where the constraint and each base have a model. It is
/// at hand from then on.
pub fn best<Q: Questions>(
    alloc: Global,
    questions: &Q,
    engine: &mut Engine,
    pool: &mut Vec<Away>,
) -> Result<Best, SearchStop>
    requires main { IsOver (Q.setting questions.now) engine.old.log }
    requires consistent { IsConsistent (Q.setting questions.now) }
    requires pool { AreAtHand (Q.setting questions.now) engine.old.log pool.old.items }
    ensures main { IsOver (Q.setting questions.now) engine.new.log }
    ensures longer { IsLonger engine.old.log engine.new.log }
    ensures answer { MatchResult result
        (λ r. IsBest (Q.setting questions.now) engine.new.log r)
        (λ stop. IsHalted engine.old.log engine.new.log (Q.budget questions.now) stop) }
    ensures pool { AreAtHand (Q.setting questions.now) engine.new.log pool.new.items }
{
    let found = closest::best(alloc, questions, engine)?;
    let away = copied(alloc, &found.shown, found.far.as_slice())?;
    keep(pool, away)?;
    Ok(found)
}

/// Whether every closest model satisfies a query; `best` is a best answer. A model at hand that
/// does not answers without a question, and one that is found is at hand from then on.
pub fn entails<Q: Questions>(
    alloc: Global,
    questions: &Q,
    engine: &mut Engine,
    pool: &mut Vec<Away>,
    best: &Best,
    ask: usize,
) -> Result<Entails, SearchStop>
    requires main { IsOver (Q.setting questions.now) engine.old.log }
    requires ask { ask < length (Q.setting questions.now).asks }
    requires best { IsBestFor (Q.setting questions.now) best.now }
    requires pool { AreAtHand (Q.setting questions.now) engine.old.log pool.old.items }
    ensures main { IsOver (Q.setting questions.now) engine.new.log }
    ensures longer { IsLonger engine.old.log engine.new.log }
    ensures answer { MatchResult result
        (λ r. IsJudged (Q.setting questions.now) engine.new.log ask best.now.values r)
        (λ stop. IsHalted engine.old.log engine.new.log (Q.budget questions.now) stop) }
    ensures pool { AreAtHand (Q.setting questions.now) engine.new.log pool.new.items }
{
    match breaker_at_hand(alloc, questions, engine, pool.as_slice(), ask)? {
        Some(away) => Ok(Entails::No(away)),
        None => asked(alloc, questions, engine, pool, best, ask),
    }
}

/// Whether every closest model satisfies a query, by a question; a model that does not is at hand
/// from then on.
fn asked<Q: Questions>(
    alloc: Global,
    questions: &Q,
    engine: &mut Engine,
    pool: &mut Vec<Away>,
    best: &Best,
    ask: usize,
) -> Result<Entails, SearchStop>
    requires main { IsOver (Q.setting questions.now) engine.old.log }
    requires ask { ask < length (Q.setting questions.now).asks }
    requires best { IsBestFor (Q.setting questions.now) best.now }
    requires pool { AreAtHand (Q.setting questions.now) engine.old.log pool.old.items }
    ensures main { IsOver (Q.setting questions.now) engine.new.log }
    ensures longer { IsLonger engine.old.log engine.new.log }
    ensures answer { MatchResult result
        (λ r. IsJudged (Q.setting questions.now) engine.new.log ask best.now.values r)
        (λ stop. IsHalted engine.old.log engine.new.log (Q.budget questions.now) stop) }
    ensures pool { AreAtHand (Q.setting questions.now) engine.new.log pool.new.items }
{
    match closest::entails(alloc, questions, engine, best, ask)? {
        Entails::Yes(step) => Ok(Entails::Yes(step)),
        Entails::No(away) => {
            let copy = copied(alloc, &away.shown, away.far.as_slice())?;
            keep(pool, copy)?;
            Ok(Entails::No(away))
        }
    }
}

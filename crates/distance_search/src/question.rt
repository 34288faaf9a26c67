//! Questions that copy the limits they are about.
ghost use Rattle.std.specs.Prelude.{◌≡◌, ◌<◌, length, MatchResult, IfOk, slice_index};
ghost use Rattle.cdcl_core.specs.Replies.{IsLonger};
ghost use Rattle.merge_encoding.specs.Claims.{NoBetter, NoBreaker, NoModelWith};
ghost use Rattle.distance_search.specs.Setting.{IsOver, IsAskable};
ghost use Rattle.distance_search.specs.Heard.{IsStopped};
ghost use Rattle.distance_search.specs.Replies.{IsAnswer};

use crate::asking::Questions;
use crate::engine::Engine;
use crate::reply::{Reply, SearchStop};
use edge::NoMemory;
use merge_encoding::Claim;
use merge_model::Sequence;
use std::alloc::Global;

/// The value of a level.
pub fn value_at(values: &[u32], level: usize) -> u32
    requires { level < length values.now }
    ensures { result ≡ slice_index values.now level }
{
    values[level]
}

fn copied(alloc: Global, values: &[u32]) -> Result<Vec<u32>, NoMemory>
    ensures { IfOk result (λ copy. copy.items ≡ values.now) }
{
    Ok(values.to_vec(alloc)?)
}

fn copied_bits(alloc: Global, bits: &[bool]) -> Result<Vec<bool>, NoMemory>
    ensures { IfOk result (λ copy. copy.items ≡ bits.now) }
{
    Ok(bits.to_vec(alloc)?)
}

/// Asks whether a level can be below its value while those before it are at most theirs.
pub fn ask_better<Q: Questions>(
    alloc: Global,
    questions: &Q,
    engine: &mut Engine,
    level: usize,
    values: &[u32],
) -> Result<Reply, SearchStop>
    requires main { IsOver (Q.setting questions.now) engine.old.log }
    requires proper { IsAskable (Q.setting questions.now) (NoBetter level values.now) }
    ensures main { IsOver (Q.setting questions.now) engine.new.log }
    ensures longer { IsLonger engine.old.log engine.new.log }
    ensures answer { MatchResult result
        (λ reply. IsAnswer (Q.setting questions.now) engine.new.log
        (NoBetter level values.now) reply)
        (λ stop. IsStopped engine.old.log engine.new.log (Q.budget questions.now) stop) }
{
    let limits = copied(alloc, values)?;
    questions.ask(
        alloc,
        engine,
        &Claim::NoBetter(level, Sequence::from_vec(limits)),
    )
}

/// Asks whether a query is false somewhere within the level values.
pub fn ask_breaker<Q: Questions>(
    alloc: Global,
    questions: &Q,
    engine: &mut Engine,
    ask: usize,
    values: &[u32],
) -> Result<Reply, SearchStop>
    requires main { IsOver (Q.setting questions.now) engine.old.log }
    requires proper { IsAskable (Q.setting questions.now) (NoBreaker ask values.now) }
    ensures main { IsOver (Q.setting questions.now) engine.new.log }
    ensures longer { IsLonger engine.old.log engine.new.log }
    ensures answer { MatchResult result
        (λ reply. IsAnswer (Q.setting questions.now) engine.new.log
        (NoBreaker ask values.now) reply)
        (λ stop. IsStopped engine.old.log engine.new.log (Q.budget questions.now) stop) }
{
    let limits = copied(alloc, values)?;
    questions.ask(
        alloc,
        engine,
        &Claim::NoBreaker(ask, Sequence::from_vec(limits)),
    )
}

/// Asks whether a model of the constraint within the level values begins with the prefix.
pub fn ask_with<Q: Questions>(
    alloc: Global,
    questions: &Q,
    engine: &mut Engine,
    values: &[u32],
    prefix: &[bool],
) -> Result<Reply, SearchStop>
    requires main { IsOver (Q.setting questions.now) engine.old.log }
    requires proper { IsAskable (Q.setting questions.now) (NoModelWith values.now prefix.now) }
    ensures main { IsOver (Q.setting questions.now) engine.new.log }
    ensures longer { IsLonger engine.old.log engine.new.log }
    ensures answer { MatchResult result
        (λ reply. IsAnswer (Q.setting questions.now) engine.new.log
        (NoModelWith values.now prefix.now) reply)
        (λ stop. IsStopped engine.old.log engine.new.log (Q.budget questions.now) stop) }
{
    let limits = copied(alloc, values)?;
    let start = copied_bits(alloc, prefix)?;
    let claim = Claim::NoModelWith(Sequence::from_vec(limits), Sequence::from_vec(start));
    questions.ask(alloc, engine, &claim)
}

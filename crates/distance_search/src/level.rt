//! Making the levels least.
ghost use Rattle.std.specs.Prelude.{◌≡◌, ◌<◌, length, map, min, IfOk, MatchResult};
ghost use Rattle.cdcl_core.specs.Replies.{IsLonger};
ghost use Rattle.distance_search.specs.Setting.{IsOver};
ghost use Rattle.distance_search.specs.Heard.{IsHalted};
ghost use Rattle.distance_search.specs.Results.{IsConsistent};
ghost use Rattle.distance_search.specs.Turns.{IsReached, IsLeastBelow, IsLowered, AreLowered};

use crate::asking::Questions;
use crate::engine::Engine;
use crate::question::{ask_better, ask_with, value_at};
use crate::reply::{Reply, SearchStop, Witness};
use edge::NoMemory;
use std::alloc::Global;
use totalizer::Unary;

/// A witness whose value at a level is least, and the step that shows it; no step where the value
/// is 0.
#[derive(Drop)]
pub struct Lowered {
    /// The witness.
    pub witness: Witness,
    /// The number of the step.
    pub step: Option<u64>,
}

/// A witness whose level values are least, and the steps that show it.
#[derive(Drop)]
pub struct LeastLevels {
    /// The witness.
    pub witness: Witness,
    /// For each level the number of the step, and `None` where its value is 0.
    pub steps: Vec<Option<u64>>,
}

/// The lengths of the levels.
fn level_lengths(alloc: Global, levels: &[Unary]) -> Result<Vec<u32>, NoMemory>
    ensures { IfOk result (λ lengths. lengths.items ≡ map length levels.now) }
{
    let mut lengths = Vec::new(alloc);
    for level in levels {
        lengths.push(level.len())?;
    }
    Ok(lengths)
}

/// The lengths of the levels, or a value where that is less.
fn level_limits(alloc: Global, levels: &[Unary], most: u32) -> Result<Vec<u32>, NoMemory>
    ensures { IfOk result (λ limits. limits.items
        ≡ map (λ level. min (length level) most) levels.now) }
{
    let mut limits = Vec::new(alloc);
    for level in levels {
        limits.push(level.len().min(most))?;
    }
    Ok(limits)
}

/// Models of the constraint and of each base. One question.
fn any_models<Q: Questions>(
    alloc: Global,
    questions: &Q,
    engine: &mut Engine,
) -> Result<Witness, SearchStop>
    requires main { IsOver (Q.setting questions.now) engine.old.log }
    requires consistent { IsConsistent (Q.setting questions.now) }
    ensures main { IsOver (Q.setting questions.now) engine.new.log }
    ensures longer { IsLonger engine.old.log engine.new.log }
    ensures answer { MatchResult result
        (λ x. IsReached (Q.setting questions.now) x)
        (λ stop. IsHalted engine.old.log engine.new.log (Q.budget questions.now) stop) }
{
    let lengths = level_lengths(alloc, questions.frame().levels.as_slice())?;
    match ask_with(alloc, questions, engine, lengths.as_slice(), &[])? {
        Reply::Refuted(_) => unreachable!(),
        Reply::Found(witness) => Ok(witness),
    }
}

/// Models of the constraint and of each base, with levels of at most a value where there are such.
fn models_within<Q: Questions>(
    alloc: Global,
    questions: &Q,
    engine: &mut Engine,
    most: u32,
) -> Result<Witness, SearchStop>
    requires main { IsOver (Q.setting questions.now) engine.old.log }
    requires consistent { IsConsistent (Q.setting questions.now) }
    ensures main { IsOver (Q.setting questions.now) engine.new.log }
    ensures longer { IsLonger engine.old.log engine.new.log }
    ensures answer { MatchResult result
        (λ x. IsReached (Q.setting questions.now) x)
        (λ stop. IsHalted engine.old.log engine.new.log (Q.budget questions.now) stop) }
{
    let limits = level_limits(alloc, questions.frame().levels.as_slice(), most)?;
    match ask_with(alloc, questions, engine, limits.as_slice(), &[])? {
        Reply::Refuted(_) => any_models(alloc, questions, engine),
        Reply::Found(witness) => Ok(witness),
    }
}

/// Models of the constraint and of each base, after a warm-up.
pub fn first<Q: Questions>(
    alloc: Global,
    questions: &Q,
    engine: &mut Engine,
) -> Result<Witness, SearchStop>
    requires main { IsOver (Q.setting questions.now) engine.old.log }
    requires consistent { IsConsistent (Q.setting questions.now) }
    ensures main { IsOver (Q.setting questions.now) engine.new.log }
    ensures longer { IsLonger engine.old.log engine.new.log }
    ensures answer { MatchResult result
        (λ x. IsReached (Q.setting questions.now) x)
        (λ stop. IsHalted engine.old.log engine.new.log (Q.budget questions.now) stop) }
{
    let most = questions.warm_up(alloc, engine)?;
    models_within(alloc, questions, engine, most)
}

/// Lowers a level's value until no lower one is there.
pub fn lower_level<Q: Questions>(
    alloc: Global,
    questions: &Q,
    engine: &mut Engine,
    level: usize,
    from: Witness,
) -> Result<Lowered, SearchStop>
    requires main { IsOver (Q.setting questions.now) engine.old.log }
    requires level { level < length (Q.setting questions.now).main.levels }
    requires reached { IsReached (Q.setting questions.now) from }
    requires below { IsLeastBelow (Q.setting questions.now) level from.values.items }
    ensures main { IsOver (Q.setting questions.now) engine.new.log }
    ensures longer { IsLonger engine.old.log engine.new.log }
    ensures answer { MatchResult result
        (λ r. IsLowered (Q.setting questions.now) engine.new.log level from r.witness r.step)
        (λ stop. IsHalted engine.old.log engine.new.log (Q.budget questions.now) stop) }
{
    let mut witness = from;
    let mut value = value_at(witness.values.as_slice(), level);
    while value > 0 {
        match ask_better(alloc, questions, engine, level, witness.values.as_slice())? {
            Reply::Refuted(step) => {
                return Ok(Lowered {
                    witness,
                    step: Some(step),
                });
            }
            Reply::Found(next) => {
                value = value_at(next.values.as_slice(), level);
                witness = next;
            }
        }
    }
    Ok(Lowered {
        witness,
        step: None,
    })
}

/// Makes the levels least, from the first to the last.
pub fn lower_all<Q: Questions>(
    alloc: Global,
    questions: &Q,
    engine: &mut Engine,
    start: Witness,
) -> Result<LeastLevels, SearchStop>
    requires main { IsOver (Q.setting questions.now) engine.old.log }
    requires reached { IsReached (Q.setting questions.now) start }
    ensures main { IsOver (Q.setting questions.now) engine.new.log }
    ensures longer { IsLonger engine.old.log engine.new.log }
    ensures answer { MatchResult result
        (λ r. AreLowered
        (Q.setting questions.now) engine.new.log
        (length (Q.setting questions.now).main.levels) r.witness r.steps.items)
        (λ stop. IsHalted engine.old.log engine.new.log (Q.budget questions.now) stop) }
{
    let mut witness = start;
    let mut steps = Vec::new(alloc);
    for level in 0..questions.frame().levels.len() {
        let Lowered {
            witness: lower,
            step,
        } = lower_level(alloc, questions, engine, level, witness)?;
        witness = lower;
        steps.push(step)?;
    }
    Ok(LeastLevels { witness, steps })
}

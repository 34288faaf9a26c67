ghost use Rattle.std.specs.Prelude.{◌≡◌, ◌≤◌, length, map, All, IfOk};
ghost use Rattle.std.specs.List.{AllZip};
ghost use Rattle.formulas.specs.Formulas.{width_of};
ghost use Rattle.merge_model.specs.Answers.{profile_of, IsRight, IsVerdict};
ghost use Rattle.merge_model.specs.Plain.{IsOver, nearest_of, distances_of};
ghost use Rattle.merge_model.specs.Walks.{IsWalk};

use super::nearest::{distances, nearest_models};
use super::ranked::refuting_place;
use super::walk::Walk;
use crate::{Aggregator, Answer, Distance, Problem, Sequence, Shown, Verdict, measure};
use edge::NoMemory;
use formulas::{Formula, Valuation};
use std::alloc::Global;

/// The answer to a problem in which every formula has a model; `NoMemory` for want of it.
pub fn merged<D: Distance, A: Aggregator>(
    alloc: Global,
    distance: &D,
    aggregator: &A,
    problem: &Problem,
    walk: &Walk,
) -> Result<Answer, NoMemory>
    requires { IsWalk (D.dist distance.now) (A.rank aggregator.now)
        (profile_of problem.now) walk.now }
    ensures { IfOk result
        (λ answer. IsRight (D.dist distance.now) (A.rank aggregator.now) problem.now answer) }
{
    let best = shown(alloc, distance, walk.candidates[walk.best], &walk.tables)?;
    let measure = measure(alloc, aggregator, walk.fulls[walk.best].as_slice())?;
    let verdicts = verdicts(alloc, distance, aggregator, problem, walk)?;
    Ok(Answer::Merged {
        best,
        measure: Sequence::from_vec(measure),
        verdicts: Sequence::from_vec(verdicts),
    })
}

/// The verdict on each query, in order; `NoMemory` for want of it.
fn verdicts<D: Distance, A: Aggregator>(
    alloc: Global,
    distance: &D,
    aggregator: &A,
    problem: &Problem,
    walk: &Walk,
) -> Result<Vec<Verdict>, NoMemory>
    requires { IsWalk (D.dist distance.now) (A.rank aggregator.now)
        (profile_of problem.now) walk.now }
    ensures { IfOk result
        (λ verdicts. AllZip (IsVerdict (D.dist distance.now) (A.rank aggregator.now)
        (profile_of problem.now))
        problem.now.asks verdicts.items) }
{
    let mut verdicts = Vec::new(alloc);
    for ask in problem.asks.as_slice() {
        let verdict = verdict(alloc, distance, aggregator, problem, walk, ask)?;
        verdicts.push(verdict)?;
    }
    Ok(verdicts)
}

/// The verdict on a query; `NoMemory` for want of it.
fn verdict<D: Distance, A: Aggregator>(
    alloc: Global,
    distance: &D,
    aggregator: &A,
    problem: &Problem,
    walk: &Walk,
    ask: &Formula,
) -> Result<Verdict, NoMemory>
    requires walk { IsWalk (D.dist distance.now) (A.rank aggregator.now)
        (profile_of problem.now) walk.now }
    requires width { width_of ask.now ≤ length problem.now.atoms }
    ensures { IfOk result
        (λ verdict. IsVerdict (D.dist distance.now) (A.rank aggregator.now)
        (profile_of problem.now) ask.now verdict) }
{
    match refuting_place(aggregator, &walk.candidates, &walk.fulls, walk.best, ask) {
        None => Ok(Verdict::Yes),
        Some(place) => {
            let shown = shown(alloc, distance, walk.candidates[place], &walk.tables)?;
            Ok(Verdict::No(shown))
        }
    }
}

/// A valuation with its distances and the nearest models; `NoMemory` for want of it.
fn shown<D: Distance>(
    alloc: Global,
    distance: &D,
    model: Valuation,
    tables: &[Sequence<Valuation>],
) -> Result<Shown, NoMemory>
    requires { All (IsOver (length model)) tables.now }
    ensures model { IfOk result (λ shown. shown.model ≡ model) }
    ensures vector { IfOk result
        (λ shown. shown.vector ≡ distances_of (D.dist distance.now) tables.now model) }
    ensures nearest { IfOk result
        (λ shown. shown.nearest ≡ map (nearest_of (D.dist distance.now) model) tables.now) }
{
    let nearest = nearest_models(alloc, distance, model, tables)?;
    let vector = distances(alloc, distance, model, &nearest)?;
    Ok(Shown {
        model,
        vector: Sequence::from_vec(vector),
        nearest: Sequence::from_vec(nearest),
    })
}

//! The next closest valuation, atom by atom.
ghost use Rattle.std.specs.Prelude.{◌≡◌, ◌+◌, ◌<◌, ◌≤◌, [], ◌∷◌, ◌++◌, length, take, IfOk};
ghost use Rattle.std.specs.Prelude.{MatchResult};
ghost use Rattle.std.specs.Option.{ForSome};
ghost use Rattle.cdcl_core.specs.Replies.{IsLonger};
ghost use Rattle.distance_search.specs.Setting.{IsOver};
ghost use Rattle.distance_search.specs.Heard.{IsHalted};
ghost use Rattle.distance_search.specs.Results.{IsBestFor, IsWith};
ghost use Rattle.closest_listing.specs.Listed.{IsClosestIn, IsNextListed, IsLowestTo, IsFirstFrom};

use distance_search::{Best, Engine, Questions, SearchStop, closest_with};
use edge::NoMemory;
use formulas::Valuation;
use std::alloc::Global;

/// The first values of a valuation, and then a given one.
fn prefix_of(alloc: Global, from: Valuation, atom: u32, value: bool) -> Result<Vec<bool>, NoMemory>
    requires { atom < length from }
    ensures { IfOk result (λ prefix. prefix.items ≡ take atom from ++ value ∷ []) }
{
    let mut prefix = Vec::new(alloc);
    for k in 0..atom {
        prefix.push(from.get(k))?;
    }
    prefix.push(value)?;
    Ok(prefix)
}

/// A closest valuation with the same first values and then a given one, if there is one. One
/// question.
fn closest_after<Q: Questions>(
    alloc: Global,
    questions: &Q,
    engine: &mut Engine,
    best: &Best,
    from: Valuation,
    atom: u32,
    value: bool,
) -> Result<Option<Valuation>, SearchStop>
    requires main { IsOver (Q.setting questions.now) engine.old.log }
    requires best { IsBestFor (Q.setting questions.now) best.now }
    requires sized { length from ≡ (Q.setting questions.now).profile.atoms }
    requires atom { atom < (Q.setting questions.now).profile.atoms }
    ensures main { IsOver (Q.setting questions.now) engine.new.log }
    ensures longer { IsLonger engine.old.log engine.new.log }
    ensures answer { MatchResult result
        (λ found. IsWith (Q.setting questions.now) (take atom from ++ value ∷ []) found)
        (λ stop. IsHalted engine.old.log engine.new.log (Q.budget questions.now) stop) }
{
    let prefix = prefix_of(alloc, from, atom, value)?;
    closest_with(alloc, questions, engine, best, prefix.as_slice())
}

/// Makes one more value false where a closest valuation allows it. No question where it is false.
fn lower_value<Q: Questions>(
    alloc: Global,
    questions: &Q,
    engine: &mut Engine,
    best: &Best,
    found: Valuation,
    depth: u32,
    lowest: Valuation,
    atom: u32,
) -> Result<Valuation, SearchStop>
    requires main { IsOver (Q.setting questions.now) engine.old.log }
    requires best { IsBestFor (Q.setting questions.now) best.now }
    requires atom { atom < (Q.setting questions.now).profile.atoms }
    requires depth { depth ≤ atom }
    requires before { IsLowestTo (Q.setting questions.now) depth atom found lowest }
    ensures main { IsOver (Q.setting questions.now) engine.new.log }
    ensures longer { IsLonger engine.old.log engine.new.log }
    ensures answer { MatchResult result
        (λ lower. IsLowestTo (Q.setting questions.now) depth (atom + 1) found lower)
        (λ stop. IsHalted engine.old.log engine.new.log (Q.budget questions.now) stop) }
{
    if !lowest.get(atom) {
        return Ok(lowest);
    }
    match closest_after(alloc, questions, engine, best, lowest, atom, false)? {
        None => Ok(lowest),
        Some(lower) => Ok(lower),
    }
}

/// The least closest valuation with the same values before an atom.
fn first_from<Q: Questions>(
    alloc: Global,
    questions: &Q,
    engine: &mut Engine,
    best: &Best,
    found: Valuation,
    depth: u32,
    atoms: u32,
) -> Result<Valuation, SearchStop>
    requires main { IsOver (Q.setting questions.now) engine.old.log }
    requires best { IsBestFor (Q.setting questions.now) best.now }
    requires atoms { atoms ≡ (Q.setting questions.now).profile.atoms }
    requires depth { depth ≤ atoms }
    requires found { IsClosestIn (Q.setting questions.now) found }
    ensures main { IsOver (Q.setting questions.now) engine.new.log }
    ensures longer { IsLonger engine.old.log engine.new.log }
    ensures answer { MatchResult result
        (λ first. IsFirstFrom (Q.setting questions.now) depth found first)
        (λ stop. IsHalted engine.old.log engine.new.log (Q.budget questions.now) stop) }
{
    let mut lowest = found;
    for atom in depth..atoms {
        lowest = lower_value(alloc, questions, engine, best, found, depth, lowest, atom)?;
    }
    Ok(lowest)
}

/// The least closest valuation of all. There is one, so the first question finds one.
fn first_of_all<Q: Questions>(
    alloc: Global,
    questions: &Q,
    engine: &mut Engine,
    best: &Best,
    atoms: u32,
) -> Result<Option<Valuation>, SearchStop>
    requires main { IsOver (Q.setting questions.now) engine.old.log }
    requires best { IsBestFor (Q.setting questions.now) best.now }
    requires atoms { atoms ≡ (Q.setting questions.now).profile.atoms }
    ensures main { IsOver (Q.setting questions.now) engine.new.log }
    ensures longer { IsLonger engine.old.log engine.new.log }
    ensures answer { MatchResult result
        (λ next. IsNextListed (Q.setting questions.now) None next)
        (λ stop. IsHalted engine.old.log engine.new.log (Q.budget questions.now) stop) }
{
    let first = first_from(alloc, questions, engine, best, best.shown.model, 0, atoms)?;
    Ok(Some(first))
}

/// The least closest valuation above one.
fn next_above<Q: Questions>(
    alloc: Global,
    questions: &Q,
    engine: &mut Engine,
    best: &Best,
    last: Valuation,
    atoms: u32,
) -> Result<Option<Valuation>, SearchStop>
    requires main { IsOver (Q.setting questions.now) engine.old.log }
    requires best { IsBestFor (Q.setting questions.now) best.now }
    requires atoms { atoms ≡ (Q.setting questions.now).profile.atoms }
    requires sized { length last ≡ atoms }
    ensures main { IsOver (Q.setting questions.now) engine.new.log }
    ensures longer { IsLonger engine.old.log engine.new.log }
    ensures answer { MatchResult result
        (λ next. IsNextListed (Q.setting questions.now) (Some last) next)
        (λ stop. IsHalted engine.old.log engine.new.log (Q.budget questions.now) stop) }
{
    let mut atom = atoms;
    while atom > 0 {
        atom -= 1;
        if !last.get(atom) {
            if let Some(found) = closest_after(alloc, questions, engine, best, last, atom, true)? {
                let first = first_from(alloc, questions, engine, best, found, atom + 1, atoms)?;
                return Ok(Some(first));
            }
        }
    }
    Ok(None)
}

/// The least closest valuation above one, or of all.
pub fn next_closest<Q: Questions>(
    alloc: Global,
    questions: &Q,
    engine: &mut Engine,
    best: &Best,
    after: Option<Valuation>,
    atoms: u32,
) -> Result<Option<Valuation>, SearchStop>
    requires main { IsOver (Q.setting questions.now) engine.old.log }
    requires best { IsBestFor (Q.setting questions.now) best.now }
    requires atoms { atoms ≡ (Q.setting questions.now).profile.atoms }
    requires sized { ForSome after (λ last. length last ≡ atoms) }
    ensures main { IsOver (Q.setting questions.now) engine.new.log }
    ensures longer { IsLonger engine.old.log engine.new.log }
    ensures answer { MatchResult result
        (λ next. IsNextListed (Q.setting questions.now) after next)
        (λ stop. IsHalted engine.old.log engine.new.log (Q.budget questions.now) stop) }
{
    match after {
        None => first_of_all(alloc, questions, engine, best, atoms),
        Some(last) => next_above(alloc, questions, engine, best, last, atoms),
    }
}

//! What claims assume.

ghost use Rattle.std.specs.Prelude.{◌≡◌, ◌≢◌, ℕ, ◌-◌, ◌<◌, ◌≤◌, [], ◌∷◌, ◌++◌, length, map};
ghost use Rattle.std.specs.Prelude.{slice_index, IfOk, OnOk, AllPairs};
ghost use Rattle.agent_copies.specs.declared.copy.AgentCopy.{AgentCopy as Copy};
ghost use Rattle.clause_store.specs.Lits.{negative_lit, InRange};
ghost use Rattle.aggregators.specs.Levels.{FitLevels};
ghost use Rattle.merge_encoding.specs.Frames.{roots_in, IsFrameOver, FrameIsDistinct};
ghost use Rattle.merge_encoding.specs.Claims.{said};
ghost use Rattle.merge_encoding.specs.Assumptions.{signed, at_most_lits, each_at_most, better_lits};
ghost use Rattle.merge_encoding.specs.Assumptions.{assumed_in, IsProperIn};

use crate::claim::Claim;
use crate::frame::Frame;
use agent_copies::AgentCopy;
use clause_store::Lit;
use edge::NoMemory;
use formulas::Valuation;
use std::alloc::Global;
use totalizer::Unary;

/// What a claim assumes of a frame, in order: literals that together say that the claim is false.
/// They are on distinct variables where the frame is distinct. `NoMemory` for want of memory.
pub fn assumptions(alloc: Global, frame: &Frame, claim: &Claim) -> Result<Vec<Lit>, NoMemory>
    requires { IsProperIn frame.now (said claim.now) }
    ensures lits { IfOk result (λ lits. lits.items ≡ assumed_in frame.now (said claim.now)) }
    ensures in_range { (vars : ℕ) → IsFrameOver vars frame.now →
        InRange vars (assumed_in frame.now (said claim.now)) }
    ensures distinct { FrameIsDistinct frame.now →
        AllPairs (λ k l. k.var ≢ l.var) (assumed_in frame.now (said claim.now)) }
{
    claim_lits(alloc, frame, claim)
}

/// The literals, claim by claim.
fn claim_lits(alloc: Global, frame: &Frame, claim: &Claim) -> Result<Vec<Lit>, NoMemory>
    requires { IsProperIn frame.now (said claim.now) }
    ensures { IfOk result (λ lits. lits.items ≡ assumed_in frame.now (said claim.now)) }
{
    match claim {
        Claim::NoModelOfConstraint => one_lit(alloc, frame.constraint),
        Claim::NoModelOfBase(agent) => one_lit(alloc, frame.copies.as_slice()[*agent].root),
        Claim::NoNearer(agent, model, distance) => nearer_lits(
            alloc,
            frame.shared.as_slice(),
            *model,
            &frame.copies.as_slice()[*agent],
            *distance,
        ),
        Claim::NoBetter(level, values) => better_lits(alloc, frame, values.as_slice(), *level),
        Claim::NoBreaker(ask, values) => {
            let mut lits = limited_lits(alloc, frame, values.as_slice())?;
            lits.push(frame.asks.as_slice()[*ask].negated())?;
            Ok(lits)
        }
        Claim::NoModelWith(values, prefix) => {
            let mut lits = limited_lits(alloc, frame, values.as_slice())?;
            push_signed(&mut lits, frame.shared.as_slice(), prefix.as_slice())?;
            Ok(lits)
        }
    }
}

/// One literal alone.
fn one_lit(alloc: Global, lit: Lit) -> Result<Vec<Lit>, NoMemory>
    ensures { IfOk result (λ lits. lits.items ≡ lit ∷ []) }
{
    let mut lits = Vec::new(alloc);
    lits.push(lit)?;
    Ok(lits)
}

/// Appends the literals that say which values the first literals have.
fn push_signed(lits: &mut Vec<Lit>, shared: &[Lit], values: &[bool]) -> Result<(), NoMemory>
    requires { length values.now ≤ length shared.now }
    ensures { OnOk result (lits.new.items ≡ lits.old.items ++ signed shared.now values.now) }
{
    for (k, value) in values.iter().enumerate() {
        lits.push(Lit {
            var: shared[k].var,
            positive: *value,
        })?;
    }
    Ok(())
}

/// The literals that say that the shared literals have the values of the model.
fn model_lits(alloc: Global, shared: &[Lit], model: Valuation) -> Result<Vec<Lit>, NoMemory>
    requires size { length model ≡ length shared.now }
    ensures { IfOk result (λ lits. lits.items ≡ signed shared.now model) }
{
    let mut lits = Vec::new(alloc);
    for (k, lit) in shared.iter().enumerate() {
        lits.push(Lit {
            var: lit.var,
            positive: model.get(k as u32),
        })?;
    }
    Ok(lits)
}

/// The literals that say that a base has a model below that distance from the model.
fn nearer_lits(
    alloc: Global,
    shared: &[Lit],
    model: Valuation,
    copy: &AgentCopy,
    distance: u32,
) -> Result<Vec<Lit>, NoMemory>
    requires size { length model ≡ length shared.now }
    requires low { 1 ≤ distance }
    requires high { distance ≤ length copy.now.away }
    ensures { IfOk result (λ lits. lits.items ≡ signed shared.now model ++
        (copy.now.root ∷ negative_lit (slice_index copy.now.away (distance - 1)) ∷ [])) }
{
    let mut lits = model_lits(alloc, shared, model)?;
    lits.push(copy.root)?;
    lits.push(copy.away.at_least(distance).negated())?;
    Ok(lits)
}

/// The roots of the constraint and of the bases.
fn root_lits(alloc: Global, constraint: Lit, copies: &[AgentCopy]) -> Result<Vec<Lit>, NoMemory>
    ensures { IfOk result (λ lits. lits.items ≡
        constraint ∷ map (λ (c : Copy). c.root) copies.now) }
{
    let mut lits = Vec::new(alloc);
    lits.push(constraint)?;
    for copy in copies {
        lits.push(copy.root)?;
    }
    Ok(lits)
}

/// Appends that a level is at most a value, where it could be more.
fn push_limit(lits: &mut Vec<Lit>, level: &Unary, value: u32) -> Result<(), NoMemory>
    ensures { OnOk result (lits.new.items ≡ lits.old.items ++ at_most_lits level.now value) }
{
    if value < level.len() {
        lits.push(level.at_least(value + 1).negated())?;
    }
    Ok(())
}

/// Appends that each level is at most its value.
fn push_limits(lits: &mut Vec<Lit>, levels: &[Unary], values: &[u32]) -> Result<(), NoMemory>
    requires { length values.now ≡ length levels.now }
    ensures { OnOk result (lits.new.items ≡ lits.old.items ++ each_at_most levels.now values.now) }
{
    for (k, level) in levels.iter().enumerate() {
        push_limit(lits, level, values[k])?;
    }
    Ok(())
}

/// The roots, and that each level is at most its value.
fn limited_lits(alloc: Global, frame: &Frame, values: &[u32]) -> Result<Vec<Lit>, NoMemory>
    requires { FitLevels values.now frame.now.levels }
    ensures { IfOk result (λ lits. lits.items ≡
        roots_in frame.now ++ each_at_most frame.now.levels values.now) }
{
    let mut lits = root_lits(alloc, frame.constraint, frame.copies.as_slice())?;
    push_limits(&mut lits, frame.levels.as_slice(), values)?;
    Ok(lits)
}

/// Appends that the levels before one are at most their values, and that one below its value.
fn push_better(
    lits: &mut Vec<Lit>,
    levels: &[Unary],
    values: &[u32],
    level: usize,
) -> Result<(), NoMemory>
    requires level { level < length levels.now }
    requires fit { FitLevels values.now levels.now }
    requires some { 1 ≤ slice_index values.now level }
    ensures { OnOk result (lits.new.items ≡
        lits.old.items ++ better_lits level levels.now values.now) }
{
    push_limits(lits, &levels[..level], &values[..level])?;
    lits.push(levels[level].at_least(values[level]).negated())?;
    Ok(())
}

/// The roots, and that the values at the level are better.
fn better_lits(
    alloc: Global,
    frame: &Frame,
    values: &[u32],
    level: usize,
) -> Result<Vec<Lit>, NoMemory>
    requires level { level < length frame.now.levels }
    requires fit { FitLevels values.now frame.now.levels }
    requires some { 1 ≤ slice_index values.now level }
    ensures { IfOk result (λ lits. lits.items ≡
        roots_in frame.now ++ better_lits level frame.now.levels values.now) }
{
    let mut lits = root_lits(alloc, frame.constraint, frame.copies.as_slice())?;
    push_better(&mut lits, frame.levels.as_slice(), values, level)?;
    Ok(lits)
}

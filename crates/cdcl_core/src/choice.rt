//! What to decide next.
ghost use Rattle.std.specs.Prelude.{◌≤◌, IfOk, IfSome, IfNone};
ghost use Rattle.clause_store.specs.Lits.{InRange};
ghost use Rattle.cdcl_core.specs.Choices.{AreTrueBefore, IsChosen, IsFree, IsFull, HasValues};

use crate::order::Order;
use clause_store::{Assignment, Lit};
use edge::NoMemory;
use std::alloc::Global;
use watch_lists::Trail;

/// What is to be decided.
pub enum Choice {
    /// An assumption that is false.
    Contrary(Lit),
    /// An assumption without a value.
    Assume(Lit),
    /// A literal without a value, where all assumptions are true.
    Free(Lit),
    /// Every variable has a value.
    Full,
}

/// A decision that is due: assumptions first, and then the variables in their order. All
/// assumptions before the place are true, and it moves on to the first that is not.
pub fn choose(assumptions: &[Lit], place: &mut usize, trail: &Trail, order: &mut Order) -> Choice
    requires in_range { InRange trail.now.vars assumptions.now }
    requires before { AreTrueBefore place.old assumptions.now trail.now.entries }
    ensures on { place.old ≤ place.new }
    ensures before { AreTrueBefore place.new assumptions.now trail.now.entries }
    ensures chosen { IsChosen place.new assumptions.now trail.now result }
{
    'past: while *place < assumptions.len() {
        let lit = assumptions[*place];
        match trail.value(lit) {
            Some(true) => *place += 1,
            Some(false) => return Choice::Contrary(lit),
            None => return Choice::Assume(lit),
        }
    }
    if let Some(lit) = next_free(trail, order) {
        return Choice::Free(lit);
    }
    match first_free(trail) {
        Some(lit) => Choice::Free(lit),
        None => Choice::Full,
    }
}

/// The next literal in the order that has no value.
fn next_free(trail: &Trail, order: &mut Order) -> Option<Lit>
    ensures { IfSome result (IsFree trail.now) }
{
    for _ in 0..trail.vars() {
        let lit = order.next()?;
        if 1 <= lit.var && lit.var <= trail.vars() && trail.value(lit).is_none() {
            return Some(lit);
        }
    }
    None
}

/// The literal of the first variable that has no value; `None` exactly where all have one.
fn first_free(trail: &Trail) -> Option<Lit>
    ensures some { IfSome result (IsFree trail.now) }
    ensures none { IfNone result (IsFull trail.now) }
{
    trail.facts();
    for index in 0..trail.vars() {
        let lit = Lit::negative(index + 1);
        if trail.value(lit).is_none() {
            return Some(lit);
        }
    }
    None
}

/// The values of the variables.
pub fn values(alloc: Global, trail: &Trail) -> Result<Assignment, NoMemory>
    ensures { IfOk result (λ made. HasValues trail.now made) }
{
    trail.facts();
    let mut made = Assignment::new(alloc, trail.vars())?;
    for index in 0..trail.vars() {
        let lit = Lit::positive(index + 1);
        made.set(index + 1, trail.value(lit).unwrap_or(false));
    }
    Ok(made)
}

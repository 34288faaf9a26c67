//! Conflict analysis: back along the trail by resolution.
ghost use Rattle.std.specs.Prelude.{◌≡◌, ◌+◌, ◌-◌, ◌<◌, ◌≤◌, ◌++◌, ◌∷◌, [], ℕ, false, length, IfOk};
ghost use Rattle.std.specs.Prelude.{OnOk, Some, nat_lt, if◌then◌else◌, slice_set};
ghost use Rattle.std.specs.List.{AllByRecursion};
ghost use Rattle.clause_store.specs.Clauses.{clause_at};
ghost use Rattle.clause_store.specs.Lits.{Ascends, InRange, IsWithin, negated};
ghost use Rattle.clause_store.specs.Refutes.{Refutes};
ghost use Rattle.watch_lists.specs.Trace.{room_of, upto, value_of, IsFalsified, IsComplete};
ghost use Rattle.watch_lists.specs.Trace.{room_in};
ghost use Rattle.solver_laws.specs.Ready.{IsFalseIn, IsLesson, IsBarred, DecidesOnly};
ghost use Rattle.cdcl_core.specs.Analysis.{CanAnalyse};
ghost use Rattle.cdcl_core.specs.Marked.{AreClear, IsAdded, lower, others};

use crate::marks::Marks;
use clause_store::{Clause, ClauseList, Lit};
use derivation_log::{Chain, Link};
use edge::NoMemory;
use std::alloc::Global;
use watch_lists::{Propagator, Trail};

/// A clause with the resolutions that lead to it.
#[derive(Drop)]
pub struct Lesson {
    /// The clause that was made.
    pub clause: Clause,
    /// The number of the clause where the links begin.
    pub first: u64,
    /// The links from there to the clause.
    pub chain: Chain,
}

/// The level of a false literal.
pub fn level_at(trail: &Trail, lit: Lit) -> u32
    requires named { 1 ≤ lit.var }
    requires in_range { lit.var ≤ trail.now.vars }
    requires is_false { value_of trail.now.entries lit ≡ Some false }
    ensures within { result ≤ trail.now.level }
    ensures room { (k : ℕ) → room_in (value_of (upto k trail.now.entries) lit) ≡
        (if nat_lt k result then 1 else 0) }
{
    trail.facts();
    match trail.level_of(lit.var) {
        Some(level) => level,
        None => 0,
    }
}

/// The greatest level below the trail's level of the literals; 0 where the search starts over.
pub fn back_level(lits: &[Lit], trail: &Trail, restart: bool) -> u32
    requires in_range { InRange trail.now.vars lits.now }
    requires is_false { AllByRecursion (IsFalseIn trail.now.entries) lits.now }
    requires level { 1 ≤ trail.now.level }
    ensures below { result < trail.now.level }
    ensures room { (k : ℕ) → k < result → room_of (upto (trail.now.level - 1) trail.now.entries)
        lits.now + 1 ≤ room_of (upto k trail.now.entries) lits.now }
{
    if restart {
        return 0;
    }
    let mut best = 0;
    for lit in lits {
        let level = level_at(trail, *lit);
        if level < trail.level() && level > best {
            best = level;
        }
    }
    best
}

/// Resolves with the reason of a literal whose negation is in the clause. Answers to how many more
/// literals the walk has to come.
fn resolve(
    known: &ClauseList,
    trail: &Trail,
    marks: &mut Marks,
    lit: Lit,
    number: u64,
    level: u32,
    chain: &mut Vec<Link>,
) -> Result<usize, NoMemory>
    requires within { number < length known.now.list }
    requires vars { trail.now.vars ≡ known.now.vars }
    requires lit { IsWithin trail.now.vars lit }
    requires size { length marks.old.marked.items ≡ trail.now.vars + 1 }
    ensures size { length marks.new.marked.items ≡ trail.now.vars + 1 }
    ensures chain { OnOk result
        (chain.new.items ≡ chain.old.items ++ record { pivot = negated lit; number = number } ∷
        []) }
    ensures added { IfOk result (λ count. IsAdded trail.now.entries
        (lower level trail.now.entries) (slice_set marks.old.marked.items lit.var false)
        marks.old.kept.items marks.new.marked.items marks.new.kept.items
        (others (Some lit) (clause_at known.now.list number)) count) }
    ensures ascends { OnOk result (Ascends (clause_at known.now.list number)) }
    ensures in_range { OnOk result (InRange trail.now.vars (clause_at known.now.list number)) }
{
    let pivot = lit.negated();
    chain.push(Link { pivot, number })?;
    marks.unmark(lit.var);
    let count = marks.add(trail, known.clause(number), Some(lit), level)?;
    Ok(count)
}

/// Resolves a false clause with reasons until one literal of the level is left.
pub fn learn<P: Propagator>(
    alloc: Global,
    known: &ClauseList,
    trail: &Trail,
    propagator: &P,
    marks: &mut Marks,
    first: u64,
) -> Result<Lesson, NoMemory>
    requires can { CanAnalyse known.now (P.attached propagator.now) trail.now }
    requires level { 1 ≤ trail.now.level }
    requires complete { IsComplete (P.attached propagator.now)
        (upto (trail.now.level - 1) trail.now.entries) }
    requires falsified { IsFalsified (P.attached propagator.now) trail.now.entries first }
    requires clear { AreClear trail.now.vars marks.old.marked.items marks.old.kept.items }
    ensures clear { OnOk result (AreClear trail.now.vars marks.new.marked.items
        marks.new.kept.items) }
    ensures lesson { IfOk result
        (λ made. IsLesson known.now.list known.now.vars made.first made.chain
        made.clause) }
    ensures is_false { IfOk result (λ made. AllByRecursion
        (IsFalseIn trail.now.entries) made.clause) }
    ensures one { IfOk result (λ made. room_of (upto (trail.now.level - 1) trail.now.entries)
        made.clause ≡ 1) }
{
    trail.facts();
    let level = trail.level();
    let mut chain = Vec::new(alloc);
    let mut count = marks.add(trail, known.clause(first), None, level)?;
    let mut left = trail.len();
    'back: loop {
        left -= 1;
        let entry = trail.entry(left);
        if marks.is_marked(entry.lit.var) {
            if count == 1 {
                marks.keep(entry.lit.negated())?;
                break;
            }
            let Some(number) = entry.reason else {
                unreachable!();
            };
            count = count - 1 + resolve(known, trail, marks, entry.lit, number, level, &mut chain)?;
        }
    }
    Ok(Lesson {
        clause: marks.finish(alloc)?,
        first,
        chain: Chain::from_vec(chain),
    })
}

/// Resolves with all reasons, until only negations of assumptions are left.
pub fn claim<P: Propagator>(
    alloc: Global,
    known: &ClauseList,
    trail: &Trail,
    propagator: &P,
    marks: &mut Marks,
    first: u64,
    assumptions: &[Lit],
) -> Result<Lesson, NoMemory>
    requires can { CanAnalyse known.now (P.attached propagator.now) trail.now }
    requires decides { DecidesOnly assumptions.now trail.now.level trail.now.entries }
    requires within { first < length known.now.list }
    requires barred { AllByRecursion (IsBarred assumptions.now trail.now.entries)
        (clause_at known.now.list first) }
    requires clear { AreClear trail.now.vars marks.old.marked.items marks.old.kept.items }
    ensures clear { OnOk result (AreClear trail.now.vars marks.new.marked.items
        marks.new.kept.items) }
    ensures lesson { IfOk result
        (λ made. IsLesson known.now.list known.now.vars made.first made.chain
        made.clause) }
    ensures refutes { IfOk result (λ made. Refutes made.clause assumptions.now) }
{
    trail.facts();
    let mut chain = Vec::new(alloc);
    marks.add(trail, known.clause(first), None, 0)?;
    let mut left = trail.len();
    'back: while left > 0 {
        left -= 1;
        let entry = trail.entry(left);
        if marks.is_marked(entry.lit.var) {
            match entry.reason {
                Some(number) => {
                    let _ = resolve(known, trail, marks, entry.lit, number, 0, &mut chain)?;
                }
                None => marks.keep(entry.lit.negated())?,
            }
        }
    }
    Ok(Lesson {
        clause: marks.finish(alloc)?,
        first,
        chain: Chain::from_vec(chain),
    })
}

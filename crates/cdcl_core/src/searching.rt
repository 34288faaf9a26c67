//! The solver: decide, propagate, learn.
ghost use Rattle.std.specs.Prelude.{◌≡◌, ◌≢◌, ◌<◌, false, length, IfOk, OnOk, OnErr, Some};
ghost use Rattle.std.specs.Prelude.{Contains};
ghost use Rattle.std.specs.Prelude.{AllPairs};
ghost use Rattle.clause_store.specs.Lits.{InRange};
ghost use Rattle.derivation_log.specs.Logs.{known_of};
ghost use Rattle.watch_lists.specs.Trace.{value_of};
ghost use Rattle.solver_laws.specs.Ready.{IsReady, IsLog, DecidesOnly};
ghost use Rattle.cdcl_core.specs.Marked.{AreClear};
ghost use Rattle.cdcl_core.specs.Replies.{IsAnswered, IsBrokenOff, IsLonger, IsClaimed};

use crate::analysis::learn;
use crate::choice::values;
use crate::engine::{Turn, close, descend, keep, refute, retreat};
use crate::marks::Marks;
use crate::order::Order;
use crate::reply::Reply;
use clause_store::Lit;
use derivation_log::Derivations;
use edge::NoMemory;
use std::alloc::Global;
use watch_lists::{Propagator, Trail};

/// Appends the claimed step for an assumption that is false.
fn refute_contrary<P: Propagator>(
    alloc: Global,
    log: &mut Derivations,
    trail: &Trail,
    propagator: &P,
    marks: &mut Marks,
    lit: Lit,
    assumptions: &[Lit],
) -> Result<u64, NoMemory>
    requires ready { IsReady log.old (P.attached propagator.now) (P.followed propagator.now)
        (P.vars propagator.now) trail.now }
    requires decides { DecidesOnly assumptions.now trail.now.level trail.now.entries }
    requires distinct { AllPairs (λ a b. a.var ≢ b.var) assumptions.now }
    requires in_range { InRange trail.now.vars assumptions.now }
    requires asked { Contains assumptions.now lit }
    requires is_false { value_of trail.now.entries lit ≡ Some false }
    requires clear { AreClear trail.now.vars marks.old.marked.items marks.old.kept.items }
    ensures clear { OnOk result (AreClear trail.now.vars marks.new.marked.items
        marks.new.kept.items) }
    ensures ok { IfOk result (λ number. (number ≡ length (known_of log.old)) ×
        IsClaimed log.old log.new assumptions.now) }
    ensures within { IfOk result (λ number. number < length (known_of log.new)) }
    ensures err { OnErr result (log.new ≡ log.old) }
    ensures ready { IsReady log.new (P.attached propagator.now) (P.followed propagator.now)
        (P.vars propagator.now) trail.now }
{
    trail.facts();
    match trail.reason_of(lit.var) {
        Some(first) => {
            let number = refute(alloc, log, trail, propagator, marks, first, assumptions)?;
            Ok(number)
        }
        None => unreachable!(),
    }
}

/// Looks for an answer.
pub fn search<P: Propagator>(
    alloc: Global,
    log: &mut Derivations,
    trail: &mut Trail,
    propagator: &mut P,
    marks: &mut Marks,
    order: &mut Order,
    assumptions: &[Lit],
    budget: u64,
) -> Result<Reply, NoMemory>
    requires ready { IsReady log.old (P.attached propagator.old) (P.followed propagator.old)
        (P.vars propagator.old) trail.old }
    requires rest { trail.old.level ≡ 0 }
    requires in_range { InRange trail.old.vars assumptions.now }
    requires distinct { AllPairs (λ a b. a.var ≢ b.var) assumptions.now }
    requires clear { AreClear trail.old.vars marks.old.marked.items marks.old.kept.items }
    ensures clear { OnOk result (AreClear trail.new.vars marks.new.marked.items
        marks.new.kept.items) }
    ensures ready { OnOk result (IsReady log.new (P.attached propagator.new)
        (P.followed propagator.new) (P.vars propagator.new) trail.new) }
    ensures rest { OnOk result (trail.new.level ≡ 0) }
    ensures answered { IfOk result
        (λ reply. IsAnswered log.old log.new assumptions.now budget reply) }
    ensures broken_off { OnErr result (IsBrokenOff log.old log.new budget) }
    ensures log { IsLog log.new }
    ensures longer { IsLonger log.old log.new }
{
    trail.facts();
    let begin = log.known().len();
    let mut assumed = 0;
    for turn in 0..budget {
        let (opened, next) = descend(log, trail, propagator, order, assumptions, assumed);
        match next {
            Turn::Conflict(number) => {
                if trail.level() <= opened {
                    let step = refute(alloc, log, trail, propagator, marks, number, assumptions)?;
                    close(log, trail, propagator, order, step);
                    return Ok(Reply::Refuted(step));
                }
                let lesson = learn(alloc, log.known(), trail, propagator, marks, number)?;
                let restart = order.learn(lesson.clause.lits(), lesson.chain.as_slice());
                let level = keep(log, trail, propagator, order, lesson, restart)?;
                assumed = opened.min(level);
            }
            Turn::Contrary(lit) => {
                let step = refute_contrary(alloc, log, trail, propagator, marks, lit, assumptions)?;
                close(log, trail, propagator, order, step);
                return Ok(Reply::Refuted(step));
            }
            Turn::Full => {
                let found = values(alloc, trail)?;
                retreat(log, trail, propagator, order, 0);
                return Ok(Reply::Found(found));
            }
        }
    }
    retreat(log, trail, propagator, order, 0);
    Ok(Reply::GaveUp(begin))
}

//! The solver's steps, each of which keeps what holds between them.
ghost use Rattle.std.specs.Prelude.{◌≡◌, ◌+◌, ◌-◌, ◌<◌, ◌≤◌, ◌∷◌, ℕ, List, true, length, IfOk};
ghost use Rattle.std.specs.Prelude.{OnOk, OnErr, IfSome, IfNone, Some, None};
ghost use Rattle.clause_store.specs.declared.lit.Lit.{Lit};
ghost use Rattle.derivation_log.specs.Logs.{known_of};
ghost use Rattle.watch_lists.specs.Trace.{room_of, upto, value_of, IsFalsified, IsComplete};
ghost use Rattle.watch_lists.specs.Trace.{places_of};
ghost use Rattle.clause_store.specs.Clauses.{clause_at};
ghost use Rattle.solver_laws.specs.Ready.{IsFalseIn, IsLesson, IsBarred, DecidesOnly, IsReady};
ghost use Rattle.std.specs.List.{AllByRecursion};
ghost use Rattle.cdcl_core.specs.Asking.{IsAsking, IsTurn};
ghost use Rattle.clause_store.specs.Lits.{InRange};
ghost use Rattle.cdcl_core.specs.Turns.{IsKept, IsLearned};
ghost use Rattle.cdcl_core.specs.Marked.{AreClear};
ghost use Rattle.cdcl_core.specs.Replies.{IsClaimed};

use crate::analysis::{Lesson, back_level, claim};
use crate::choice::{Choice, choose};
use crate::marks::Marks;
use crate::order::Order;
use clause_store::Lit;
use derivation_log::{Derivations, Step, StepKind};
use edge::NoMemory;
use std::alloc::Global;
use watch_lists::{Propagator, Trail};

/// Propagates.
pub fn settle<P: Propagator>(
    log: &Derivations,
    trail: &mut Trail,
    propagator: &mut P,
) -> Option<u64>
    requires { IsReady log.now (P.attached propagator.old) (P.followed propagator.old)
        (P.vars propagator.old) trail.old }
    ensures ready { IsReady log.now (P.attached propagator.new) (P.followed propagator.new)
        (P.vars propagator.new) trail.new }
    ensures found { IfSome result (IsFalsified (P.attached propagator.new) trail.new.entries) }
    ensures complete { IfNone result (IsComplete (P.attached propagator.new) trail.new.entries) }
    ensures followed { IfNone result (P.followed propagator.new ≡ places_of trail.new.entries) }
    ensures level { trail.new.level ≡ trail.old.level }
    ensures below { (k : ℕ) → k < trail.old.level → upto k trail.new.entries ≡
        upto k trail.old.entries }
    ensures more { length trail.old.entries ≤ length trail.new.entries }
    ensures vars { P.vars propagator.new ≡ P.vars propagator.old }
    ensures trail_vars { trail.new.vars ≡ trail.old.vars }
    ensures decides { (asked : List Lit) (k : ℕ) → DecidesOnly asked k trail.old.entries →
        DecidesOnly asked k trail.new.entries }
    ensures kept { (l : Lit) → value_of trail.old.entries l ≡ Some true →
        value_of trail.new.entries l ≡ Some true }
{
    propagator.propagate(log.known(), trail)
}

/// Goes back to a level.
pub fn retreat<P: Propagator>(
    log: &Derivations,
    trail: &mut Trail,
    propagator: &mut P,
    order: &mut Order,
    level: u32,
)
    requires ready { IsReady log.now (P.attached propagator.old) (P.followed propagator.old)
        (P.vars propagator.old) trail.old }
    requires level { level ≤ trail.old.level }
    ensures ready { IsReady log.now (P.attached propagator.new) (P.followed propagator.new)
        (P.vars propagator.new) trail.new }
    ensures trail { trail.new ≡ record {
      vars = trail.old.vars;
      level = level;
      entries = upto level
          trail.old.entries;
    } }
    ensures attached { P.attached propagator.new ≡ P.attached propagator.old }
    ensures vars { P.vars propagator.new ≡ P.vars propagator.old }
{
    trail.facts();
    if level < trail.level() {
        order.take_back(trail, level);
        trail.back_to(level);
        propagator.undo(trail);
    }
}

/// Decides a literal, after propagation found no conflict.
pub fn open<P: Propagator>(log: &Derivations, trail: &mut Trail, propagator: &P, lit: Lit)
    requires ready { IsReady log.now (P.attached propagator.now) (P.followed propagator.now)
        (P.vars propagator.now) trail.old }
    requires complete { IsComplete (P.attached propagator.now) trail.old.entries }
    requires followed { P.followed propagator.now ≡ places_of trail.old.entries }
    requires named { 1 ≤ lit.var }
    requires in_range { lit.var ≤ trail.old.vars }
    requires free { value_of trail.old.entries lit ≡ None }
    ensures ready { IsReady log.now (P.attached propagator.now) (P.followed propagator.now)
        (P.vars propagator.now) trail.new }
    ensures trail { trail.new ≡ record {
      vars = trail.old.vars;
      level = trail.old.level + 1;
      entries = record
          { lit = lit; level = trail.old.level + 1; reason = None } ∷ trail.old.entries;
    } }
    ensures within { length trail.new.entries ≤ trail.new.vars }
{
    trail.facts();
    trail.decide(lit);
}

/// Goes back, and appends and attaches a learned clause.
pub fn keep<P: Propagator>(
    log: &mut Derivations,
    trail: &mut Trail,
    propagator: &mut P,
    order: &mut Order,
    lesson: Lesson,
    restart: bool,
) -> Result<u32, NoMemory>
    requires ready { IsReady log.old (P.attached propagator.old) (P.followed propagator.old)
        (P.vars propagator.old) trail.old }
    requires level { 1 ≤ trail.old.level }
    requires lesson { IsLesson (known_of log.old) log.old.vars lesson.first lesson.chain
        lesson.clause }
    requires is_false { AllByRecursion (IsFalseIn trail.old.entries) lesson.clause }
    requires one { room_of (upto (trail.old.level - 1) trail.old.entries) lesson.clause ≡ 1 }
    ensures log { IsKept log.old log.new }
    ensures learned { OnOk result (IsLearned log.old log.new) }
    ensures ready { OnOk result (IsReady log.new (P.attached propagator.new)
        (P.followed propagator.new) (P.vars propagator.new) trail.new) }
    ensures lower { IfOk result (λ level. level < trail.old.level) }
    ensures trail { IfOk result
        (λ level. trail.new ≡ record {
          vars = trail.old.vars;
          level = level;
          entries = upto level
              trail.old.entries;
        }) }
    ensures vars { P.vars propagator.new ≡ P.vars propagator.old }
{
    let _ = log.known().len();
    let level = back_level(lesson.clause.lits(), trail, restart);
    retreat(log, trail, propagator, order, level);
    let number = log.append(Step {
        kind: StepKind::Learned,
        clause: lesson.clause,
        first: lesson.first,
        chain: lesson.chain,
    })?;
    propagator.attach(log.known(), number, trail)?;
    Ok(level)
}

/// Appends a claimed step that refutes the assumptions.
pub fn refute<P: Propagator>(
    alloc: Global,
    log: &mut Derivations,
    trail: &Trail,
    propagator: &P,
    marks: &mut Marks,
    first: u64,
    assumptions: &[Lit],
) -> Result<u64, NoMemory>
    requires ready { IsReady log.old (P.attached propagator.now) (P.followed propagator.now)
        (P.vars propagator.now) trail.now }
    requires decides { DecidesOnly assumptions.now trail.now.level trail.now.entries }
    requires within { first < length (known_of log.old) }
    requires barred { AllByRecursion (IsBarred assumptions.now trail.now.entries)
        (clause_at (known_of log.old) first) }
    requires clear { AreClear trail.now.vars marks.old.marked.items marks.old.kept.items }
    ensures clear { OnOk result (AreClear trail.now.vars marks.new.marked.items
        marks.new.kept.items) }
    ensures ok { IfOk result (λ number. (number ≡ length (known_of log.old)) ×
        IsClaimed log.old log.new assumptions.now) }
    ensures within { IfOk result (λ number. number < length (known_of log.new)) }
    ensures err { OnErr result (log.new ≡ log.old) }
    ensures ready { IsReady log.new (P.attached propagator.now) (P.followed propagator.now)
        (P.vars propagator.now) trail.now }
{
    let made = claim(
        alloc,
        log.known(),
        trail,
        propagator,
        marks,
        first,
        assumptions,
    )?;
    let number = log.append(Step {
        kind: StepKind::Claimed,
        clause: made.clause,
        first: made.first,
        chain: made.chain,
    })?;
    Ok(number)
}

/// Goes back to no level, and attaches a claimed step, so that later questions use it. Where memory
/// for that is wanting, the step stands in the log all the same.
pub fn close<P: Propagator>(
    log: &Derivations,
    trail: &mut Trail,
    propagator: &mut P,
    order: &mut Order,
    number: u64,
)
    requires ready { IsReady log.now (P.attached propagator.old) (P.followed propagator.old)
        (P.vars propagator.old) trail.old }
    requires within { number < length (known_of log.now) }
    ensures ready { IsReady log.now (P.attached propagator.new) (P.followed propagator.new)
        (P.vars propagator.new) trail.new }
    ensures rest { trail.new.level ≡ 0 }
    ensures vars { trail.new.vars ≡ trail.old.vars }
{
    retreat(log, trail, propagator, order, 0);
    let _ = propagator.attach(log.known(), number, trail);
}

/// Where deciding and propagating came to.
pub enum Turn {
    /// The clause of this number is false.
    Conflict(u64),
    /// This assumption is false.
    Contrary(Lit),
    /// Every variable has a value, and no clause is false.
    Full,
}

/// Decides and propagates, until there is a conflict or a false assumption or nothing left to
/// decide.
pub fn descend<P: Propagator>(
    log: &Derivations,
    trail: &mut Trail,
    propagator: &mut P,
    order: &mut Order,
    assumptions: &[Lit],
    assumed: u32,
) -> (u32, Turn)
    requires ready { IsReady log.now (P.attached propagator.old) (P.followed propagator.old)
        (P.vars propagator.old) trail.old }
    requires in_range { InRange trail.old.vars assumptions.now }
    requires asking { IsAsking assumptions.now assumed trail.old }
    ensures ready { IsReady log.now (P.attached propagator.new) (P.followed propagator.new)
        (P.vars propagator.new) trail.new }
    ensures asking { IsAsking assumptions.now result.0 trail.new }
    ensures turn { IsTurn assumptions.now result.0 (P.attached propagator.new) trail.new result.1 }
    ensures vars { trail.new.vars ≡ trail.old.vars }
{
    trail.facts();
    let mut assumed = assumed;
    let mut place = assumed as usize;
    'down: loop {
        trail.facts();
        let conflict = settle(log, trail, propagator);
        trail.facts();
        if let Some(number) = conflict {
            return (assumed, Turn::Conflict(number));
        }
        match choose(assumptions, &mut place, trail, order) {
            Choice::Contrary(lit) => return (assumed, Turn::Contrary(lit)),
            Choice::Assume(lit) => {
                open(log, trail, propagator, lit);
                assumed = trail.level();
                place += 1;
            }
            Choice::Free(lit) => open(log, trail, propagator, lit),
            Choice::Full => return (assumed, Turn::Full),
        }
    }
}

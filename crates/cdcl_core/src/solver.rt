//! A solver that keeps a log.

ghost use Rattle.std.specs.Prelude.{◌≡◌, ◌≢◌, ◌<◌, ◌≤◌, [], true, false, length, map, IfOk, OnOk};
ghost use Rattle.std.specs.Prelude.{OnErr, IsErr, AllPairs, ◌^◌};
ghost use Rattle.clause_store.specs.Lits.{InRange};
ghost use Rattle.derivation_log.specs.Logs.{known_of, learned_of, IsSound, IsNew};
ghost use Rattle.watch_lists.specs.Trace.{StandIn, Attached};
ghost use Rattle.solver_laws.specs.Ready.{IsLog, AllFit};
ghost use Rattle.cdcl_core.specs.Replies.{IsAnswered, IsBrokenOff, IsJust};
ghost use Rattle.cdcl_core.specs.Replies.{IsLonger, IsDecided};

use crate::marks::Marks;
use crate::order::Order;
use crate::reply::Reply;
use crate::searching::search;
use clause_store::{ClauseList, Lit};
use derivation_log::Derivations;
use edge::NoMemory;
use std::alloc::Global;
use std::marker::Model;
use watch_lists::{Propagator, Trail};

/// A solver over a main list of clauses, which keeps a log of the steps that it learns and claims.
#[derive(Drop)]
pub struct Solver<P: Propagator + Drop> {
    log: Derivations,
    trail: Trail,
    propagator: P,
    marks: Marks,
    order: Order,
    failed: bool,
    alloc: Global,
}

impl<P: Propagator + Drop> Model for Solver<P> {
    ghost use Rattle.cdcl_core.specs.State.{State, IsResting};

    ghost Value = { State };

    ghost view = { λ s. record { log = s.log; failed = s.failed } };

    ghost invariant = { λ s. IsResting s.log s.failed (P.attached s.propagator)
        (P.followed s.propagator) (P.vars s.propagator) s.trail s.marks.marked.items
        s.marks.kept.items };
}

impl<P: Propagator + Drop> Solver<P> {
    /// A solver of the main clauses, with a log of no step; `NoMemory` for want of memory.
    pub fn new(alloc: Global, main: ClauseList) -> Result<Solver<P>, NoMemory>
        ensures { IfOk result
            (λ s. s ≡ record {
              log = record { main = main.list; vars = main.vars; steps = [] };
              failed = false;
            }) }
    {
        let vars = main.vars();
        let trail = Trail::new(alloc, vars)?;
        let mut propagator = P::new(alloc, vars)?;
        let marks = Marks::new(alloc, vars)?;
        let order = Order::new(alloc, vars)?;
        let log = Derivations::new(alloc, main);
        attach_all(&log, &trail, &mut propagator)?;
        Ok(Solver {
            log,
            trail,
            propagator,
            marks,
            order,
            failed: false,
            alloc,
        })
    }

    /// The log of what was learned and claimed so far.
    pub fn derivations(&self) -> &Derivations
        ensures log { result.now ≡ self.now.log }
        ensures sound { IsLog self.now.log }
    {
        &self.log
    }

    /// The log as it stands.
    pub fn into_derivations(self) -> Derivations
        ensures log { result ≡ self.log }
        ensures sound { IsLog self.log }
    {
        let Solver {
            log,
            trail: _,
            propagator: _,
            marks: _,
            order: _,
            failed: _,
            alloc: _,
        } = self;
        log
    }

    /// Asks whether some assignment makes the main clauses and the assumptions true. At most
    /// `budget` steps are learned; with the last of them the question is given up, if it is not
    /// answered before. Once memory is wanting, every later question answers so, and the log still
    /// has steps alone that follow.
    pub fn ask(&mut self, assumptions: &[Lit], budget: u64) -> Result<Reply, NoMemory>
        requires in_range { InRange self.old.log.vars assumptions.now }
        requires distinct { AllPairs (λ a b. a.var ≢ b.var) assumptions.now }
        requires budget { 1 ≤ budget }

        // The log grows at its end alone, by steps that follow.
        ensures grows { IsLonger self.old.log self.new.log }
        ensures sound { IsSound self.new.log.main self.new.log.steps }

        // Learned clauses include no main clause and no earlier learned one, are not empty, and
        // have no variable twice, so there are not many.
        ensures new { IsNew self.new.log.main self.new.log.steps }
        ensures fit { AllFit self.new.log.vars self.new.log.steps }
        ensures distinct { AllPairs (λ c d. c ≢ d) (learned_of self.new.log.steps) }
        ensures few { length (learned_of self.new.log.steps) < 3 ^ self.new.log.vars }

        ensures answered { IfOk result
            (λ reply. IsAnswered self.old.log self.new.log assumptions.now budget
            reply) }
        ensures refuted { IfOk result (IsJust self.old.log.main assumptions.now) }
        ensures enough { 3 ^ self.old.log.vars ≤ budget → IfOk result IsDecided }

        // Where memory is wanting, the question's steps are learned ones, at most `budget` of them;
        // once it was wanting, nothing changes.
        ensures broken_off { OnErr result (IsBrokenOff self.old.log self.new.log budget) }
        ensures stays { self.old.failed ≡ true → self.new ≡ self.old }

        ensures ok { OnOk result (self.new.failed ≡ false) }
        ensures err { OnErr result (self.new.failed ≡ true) }
        ensures fails_on { self.old.failed ≡ true → IsErr result }
    {
        if self.failed {
            return Err(NoMemory);
        }
        self.failed = true;
        let reply = search(
            self.alloc,
            &mut self.log,
            &mut self.trail,
            &mut self.propagator,
            &mut self.marks,
            &mut self.order,
            assumptions,
            budget,
        )?;
        self.failed = false;
        Ok(reply)
    }
}

/// Attaches the main clauses.
fn attach_all<P: Propagator>(
    log: &Derivations,
    trail: &Trail,
    propagator: &mut P,
) -> Result<(), NoMemory>
    requires none { P.attached propagator.old ≡ [] }
    requires followed { P.followed propagator.old ≡ [] }
    requires vars { log.now.vars ≡ P.vars propagator.old }
    requires trail { trail.now ≡ record { vars = P.vars propagator.old; level = 0; entries = [] } }
    requires steps { log.now.steps ≡ [] }
    ensures attached { OnOk result (map (λ (a : Attached). a.clause) (P.attached propagator.new) ≡
        log.now.main) }
    ensures stand { OnOk result (StandIn (known_of log.now) (P.attached propagator.new)) }
    ensures followed { P.followed propagator.new ≡ [] }
    ensures vars { P.vars propagator.new ≡ P.vars propagator.old }
{
    for number in 0..log.main_len() {
        propagator.attach(log.known(), number, trail)?;
    }
    Ok(())
}

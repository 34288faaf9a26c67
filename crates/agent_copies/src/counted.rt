//! Distances with counters.

ghost use Rattle.std.specs.Prelude.{◌≡◌, ℕ, ◌+◌, ◌≤◌, List, ◌++◌, IfOk, OnOk, OnErr, length, map};
ghost use Rattle.formulas.specs.Limits.{valuation_limit};
ghost use Rattle.clause_store.specs.declared.lit.Lit.{Lit as Literal};
ghost use Rattle.clause_store.specs.Lits.{sorted_clause, InRange};
ghost use Rattle.clause_store.specs.Grew.{Grew};
ghost use Rattle.clause_store.specs.Limits.{var_limit};
ghost use Rattle.totalizer.specs.Counter.{Due};
ghost use Rattle.agent_copies.specs.Counter.{IsCounter};
ghost use Rattle.agent_copies.specs.Limits.{counter_room};

use crate::difference::add_differences;
use clause_store::{ClauseList, Lit};
use edge::NoMemory;
use merge_model::{Distance, Drastic, Hamming};
use std::alloc::Global;
use totalizer::{Unary, either, leaves, total};

/// A distance that clauses can count. Its meaning `due` is what a counter takes after so many
/// variables: clauses, variables and outputs. The law `counts`, below the method, says that the
/// clauses hold in exactly one extension, and that there the outputs, which are fresh, count the
/// distance.
pub trait Counted: Distance {
    /// What a counter takes after so many variables.
    ghost due: { Self → ℕ → List Literal → List Literal → Due };

    /// The counter of the distance of the values of `shared` from those of `own`, 1 to 64 literals
    /// each: appends clauses over at most 2^16 fresh variables. After `NoMemory` the list has grown
    /// by some variables and some of these clauses, from the first on.
    fn counter(
        &self,
        alloc: Global,
        clauses: &mut ClauseList,
        shared: &[Lit],
        own: &[Lit],
    ) -> Result<Unary, NoMemory>
        requires lengths { length shared.now ≡ length own.now }
        requires some { 1 ≤ length shared.now }
        requires few { length shared.now ≤ valuation_limit }
        requires shared_in { InRange clauses.old.vars shared.now }
        requires own_in { InRange clauses.old.vars own.now }
        requires room { clauses.old.vars + counter_room ≤ var_limit }
        ensures outputs { IfOk result
            (λ r. r ≡ (due self.now clauses.old.vars shared.now own.now).outputs) }
        ensures vars { OnOk result
            (clauses.new.vars ≡ (due self.now clauses.old.vars shared.now own.now).vars) }
        ensures list { OnOk result (clauses.new.list ≡ clauses.old.list ++ map sorted_clause
            (due self.now clauses.old.vars shared.now own.now).clauses) }
        ensures err { OnErr result (Grew clauses.old clauses.new
            (due self.now clauses.old.vars shared.now own.now).clauses) };

    /// What a counter takes counts the distance.
    ghost counts: { (d : Self) (v : ℕ) (shared own : List Literal) → length shared ≡ length own →
        1 ≤ length shared → length shared ≤ valuation_limit → InRange v shared → InRange v own →
        IsCounter v shared own (Self.dist d) (Self.most d (length shared)) (due d v shared own) };
}

impl Counted for Hamming {
    ghost use Rattle.agent_copies.specs.Differences.{hamming_due};
    ghost use Rattle.agent_copies.specs.CounterLaws.{hamming_is};

    ghost due = { λ _. hamming_due };

    ghost counts = { λ _. hamming_is };

    fn counter(
        &self,
        alloc: Global,
        clauses: &mut ClauseList,
        shared: &[Lit],
        own: &[Lit],
    ) -> Result<Unary, NoMemory> {
        let base = clauses.vars();
        let vars = clauses.fresh_vars(shared.len())?;
        let parts = leaves(alloc, &vars)?;
        add_differences(clauses, base, shared, own)?;
        total(alloc, clauses, &parts)
    }
}

impl Counted for Drastic {
    ghost use Rattle.agent_copies.specs.Differences.{drastic_due};
    ghost use Rattle.agent_copies.specs.CounterLaws.{drastic_is};

    ghost due = { λ _. drastic_due };

    ghost counts = { λ _. drastic_is };

    fn counter(
        &self,
        alloc: Global,
        clauses: &mut ClauseList,
        shared: &[Lit],
        own: &[Lit],
    ) -> Result<Unary, NoMemory> {
        let base = clauses.vars();
        let vars = clauses.fresh_vars(shared.len())?;
        add_differences(clauses, base, shared, own)?;
        either(alloc, clauses, &vars)
    }
}

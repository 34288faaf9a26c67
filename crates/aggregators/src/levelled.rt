ghost use Rattle.std.specs.Prelude.{◌≡◌, ℕ, ◌+◌, ◌≤◌, List, ◌++◌, length, map, All, IfOk, OnOk};
ghost use Rattle.std.specs.Prelude.{OnErr};
ghost use Rattle.std.specs.Cmp.Lexicographic.{slice_cmp};
ghost use Rattle.std.specs.Ordering.{nat_cmp};
ghost use Rattle.ranks.specs.Limits.{entry_limit, distance_limit};
ghost use Rattle.clause_store.specs.Grew.{Grew};
ghost use Rattle.clause_store.specs.Lits.{sorted_clause};
ghost use Rattle.clause_store.specs.Limits.{var_limit};
ghost use Rattle.aggregators.specs.Levels.{LevelsDue, HaveLevels, AreLevels};
ghost use Rattle.aggregators.specs.Limits.{levels_room};

use clause_store::ClauseList;
use edge::NoMemory;
use merge_model::Aggregator;
use std::alloc::Global;
use totalizer::Unary;

/// An aggregator whose order is that of level values.
///
/// Its meanings are `levels_of`, the level values of a list of distances that are each at most a
/// greatest one, and `levels_due`: the clauses, the number of variables and the counters that are
/// due for the levels, after so many variables, of counters of distances that each count so often.
///
/// The laws, below the methods. `in_order`: for lists of one length, the lexicographic order of the
/// level values is that of the ranks. `are_levels`: where the given counters count, the clauses
/// that are due hold in exactly one extension, and there the levels count the level values. Level
/// values are as many as levels, each at most its level's length. Each output of a level is a fresh
/// variable or an output of a given counter, and all of them are distinct where those of the
/// counters are.
pub trait Levelled: Aggregator {
    ghost levels_of: { Self → List ℕ → ℕ → List ℕ };

    ghost levels_due: { Self → ℕ → List (List ℕ) → List ℕ → LevelsDue };

    /// The level values of a list of 1 to 64 distances of at most `top`, which is at most 4,096;
    /// `NoMemory` for want of it.
    fn level_values(&self, alloc: Global, full: &[u32], top: u32) -> Result<Vec<u32>, NoMemory>
        requires some { 1 ≤ length full.now }
        requires few { length full.now ≤ entry_limit }
        requires within { All (λ k. k ≤ top) full.now }
        requires small { top ≤ distance_limit }
        ensures { IfOk result (λ values. values.items ≡ levels_of self.now full.now top) };

    /// The levels of counters of distances that each count so often: 1 to 64 in all, of one length
    /// of at most 4,096. Appends clauses over at most 2^24 fresh variables. After `NoMemory` the
    /// list has grown by some variables and some of these clauses, from the first on.
    fn levels(
        &self,
        alloc: Global,
        clauses: &mut ClauseList,
        aways: &[Unary],
        times: &[u32],
    ) -> Result<Vec<Unary>, NoMemory>
        requires counters { HaveLevels clauses.old.vars aways.now times.now }
        requires room { clauses.old.vars + levels_room ≤ var_limit }
        ensures levels { IfOk result (λ levels. levels.items ≡
            (levels_due self.now clauses.old.vars aways.now times.now).levels) }
        ensures vars { OnOk result
            (clauses.new.vars ≡ (levels_due self.now clauses.old.vars aways.now times.now).vars) }
        ensures list { OnOk result (clauses.new.list ≡ clauses.old.list ++ map sorted_clause
            (levels_due self.now clauses.old.vars aways.now times.now).clauses) }
        ensures err { OnErr result (Grew clauses.old clauses.new
            (levels_due self.now clauses.old.vars aways.now times.now).clauses) };

    ghost in_order: { (a : Self) (top : ℕ) (u w : List ℕ) → All (λ k. k ≤ top) u →
        All (λ k. k ≤ top) w → length u ≡ length w → slice_cmp nat_cmp (levels_of a u top)
        (levels_of a w top) ≡ slice_cmp nat_cmp (Self.rank a u) (Self.rank a w) };

    ghost are_levels: { (a : Self) (v : ℕ) (aways : List (List ℕ)) (times : List ℕ) →
        HaveLevels v aways times → AreLevels v aways times (levels_of a)
        (levels_due a v aways times) };
}

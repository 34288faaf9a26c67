ghost use Rattle.std.specs.Prelude.{◌≡◌, ◌+◌, ◌*◌, ◌<◌, ◌≤◌, ◌++◌, length, map, All, IfOk, OnOk};
ghost use Rattle.std.specs.Prelude.{OnErr};
ghost use Rattle.ranks.specs.Limits.{entry_limit};
ghost use Rattle.ranks.specs.Ranks.{downs};
ghost use Rattle.clause_store.specs.Grew.{Grew};
ghost use Rattle.clause_store.specs.Lits.{sorted_clause};
ghost use Rattle.clause_store.specs.Limits.{var_limit};
ghost use Rattle.totalizer.specs.Counter.{AllVarsWithin, leaves};
ghost use Rattle.totalizer.specs.Total.{total_due};
ghost use Rattle.aggregators.specs.LevelValues.{leximax_values};
ghost use Rattle.aggregators.specs.Levels.{column, totals_due};
ghost use Rattle.aggregators.specs.Limits.{level_room};

use crate::Levelled;
use crate::counters::{outputs_at, repeated_counters};
use clause_store::ClauseList;
use edge::NoMemory;
use merge_model::Leximax;
use ranks::at_least;
use std::alloc::Global;
use totalizer::{Unary, leaves, total};

impl Levelled for Leximax {
    ghost use Rattle.std.proofs.Common.{sym};
    ghost use Rattle.ranks.proofs.Counts.{at_most};
    ghost use Rattle.ranks.proofs.Orders.{leximax_order};
    ghost use Rattle.aggregators.specs.LevelValues.{leximax_values};
    ghost use Rattle.aggregators.specs.Levels.{leximax_due};
    ghost use Rattle.aggregators.specs.LeximaxLevels.{leximax_is};

    ghost levels_of = { λ _ u top. leximax_values u top };

    ghost levels_due = { λ _ v aways times. leximax_due v aways times };

    ghost in_order = { λ _ top u w small_u small_w same.
        sym (leximax_order top u w (at_most top u small_u) (at_most top w small_w) same) };

    ghost are_levels = { λ _ v aways times h. leximax_is v aways times h };

    fn level_values(&self, alloc: Global, full: &[u32], top: u32) -> Result<Vec<u32>, NoMemory> {
        values_down(alloc, full, top)
    }

    fn levels(
        &self,
        alloc: Global,
        clauses: &mut ClauseList,
        aways: &[Unary],
        times: &[u32],
    ) -> Result<Vec<Unary>, NoMemory> {
        let top = aways[0].len() as usize;
        let parts = repeated_counters(alloc, aways, times)?;
        add_levels(alloc, clauses, &parts, top)
    }
}

/// How many entries are at least `top`, at least `top - 1`, down to at least 1.
fn values_down(alloc: Global, full: &[u32], top: u32) -> Result<Vec<u32>, NoMemory>
    requires { length full.now ≤ entry_limit }
    ensures { IfOk result (λ values. values.items ≡ leximax_values full.now top) }
{
    let mut values = Vec::new(alloc);
    let mut level = top;
    while level > 0 {
        values.push(at_least(full, level))?;
        level -= 1;
    }
    Ok(values)
}

/// The total of the parts' outputs of number `k`, from 0.
fn add_level(
    alloc: Global,
    clauses: &mut ClauseList,
    parts: &[Unary],
    k: usize,
) -> Result<Unary, NoMemory>
    requires some { 1 ≤ length parts.now }
    requires few { length parts.now ≤ entry_limit }
    requires long { All (λ part. k < length part) parts.now }
    requires within { AllVarsWithin clauses.old.vars parts.now }
    requires room { clauses.old.vars + level_room ≤ var_limit }
    ensures outputs { IfOk result
        (λ level. level ≡ (total_due clauses.old.vars (leaves (column k parts.now))).outputs) }
    ensures vars { OnOk result
        (clauses.new.vars ≡ (total_due clauses.old.vars (leaves (column k parts.now))).vars) }
    ensures list { OnOk result (clauses.new.list ≡ clauses.old.list ++ map sorted_clause
        (total_due clauses.old.vars (leaves (column k parts.now))).clauses) }
    ensures err { OnErr result (Grew clauses.old clauses.new
        (total_due clauses.old.vars (leaves (column k parts.now))).clauses) }
{
    let outputs = outputs_at(alloc, parts, k)?;
    let ones = leaves(alloc, &outputs)?;
    total(alloc, clauses, &ones)
}

/// A level for each of the `top` outputs of the parts, from the highest down.
fn add_levels(
    alloc: Global,
    clauses: &mut ClauseList,
    parts: &[Unary],
    top: usize,
) -> Result<Vec<Unary>, NoMemory>
    requires some { 1 ≤ length parts.now }
    requires few { length parts.now ≤ entry_limit }
    requires sized { All (λ part. length part ≡ top) parts.now }
    requires within { AllVarsWithin clauses.old.vars parts.now }
    requires room { clauses.old.vars + level_room * top ≤ var_limit }
    ensures levels { IfOk result (λ levels. levels.items ≡
        (totals_due (downs top) clauses.old.vars parts.now).levels) }
    ensures vars { OnOk result
        (clauses.new.vars ≡ (totals_due (downs top) clauses.old.vars parts.now).vars) }
    ensures list { OnOk result (clauses.new.list ≡ clauses.old.list ++ map sorted_clause
        (totals_due (downs top) clauses.old.vars parts.now).clauses) }
    ensures err { OnErr result (Grew clauses.old clauses.new
        (totals_due (downs top) clauses.old.vars parts.now).clauses) }
{
    let mut levels = Vec::new(alloc);
    let mut left = top;
    while left > 0 {
        left -= 1;
        let level = add_level(alloc, clauses, parts, left)?;
        levels.push(level)?;
    }
    Ok(levels)
}

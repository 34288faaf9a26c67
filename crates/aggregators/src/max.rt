ghost use Rattle.std.specs.Prelude.{◌≡◌, ◌+◌, ◌<◌, ◌≤◌, ◌++◌, length, map, All, IfOk, OnOk, OnErr};
ghost use Rattle.clause_store.specs.Grew.{Grew};
ghost use Rattle.clause_store.specs.Lits.{sorted_clause};
ghost use Rattle.clause_store.specs.Fresh.{fresh_vars};
ghost use Rattle.clause_store.specs.Limits.{var_limit};
ghost use Rattle.totalizer.specs.Counter.{AllVarsWithin};
ghost use Rattle.totalizer.specs.Either.{either_due};
ghost use Rattle.totalizer.specs.Joined.{joined_blocks};
ghost use Rattle.aggregators.specs.Levels.{column, output_clauses};

use crate::Levelled;
use crate::counters::outputs_at;
use clause_store::ClauseList;
use edge::NoMemory;
use merge_model::Max;
use ranks::greatest;
use std::alloc::Global;
use totalizer::{Unary, either};

impl Levelled for Max {
    ghost use Rattle.std.proofs.Common.{refl};
    ghost use Rattle.aggregators.specs.LevelValues.{max_values};
    ghost use Rattle.aggregators.specs.Levels.{max_due};
    ghost use Rattle.aggregators.specs.MaxLevel.{max_is};

    ghost levels_of = { λ _ u top. max_values u top };

    ghost levels_due = { λ _ v aways times. max_due v aways times };

    ghost in_order = { λ _ top u w _ _ _. refl };

    ghost are_levels = { λ _ v aways times h. max_is v aways times h };

    fn level_values(&self, alloc: Global, full: &[u32], top: u32) -> Result<Vec<u32>, NoMemory> {
        let values = vec![in alloc; greatest(full)]?;
        Ok(values)
    }

    fn levels(
        &self,
        alloc: Global,
        clauses: &mut ClauseList,
        aways: &[Unary],
        times: &[u32],
    ) -> Result<Vec<Unary>, NoMemory> {
        let top = aways[0].len() as usize;
        let outputs = add_outputs(alloc, clauses, aways, top)?;
        let mut levels = Vec::new(alloc);
        levels.push(Unary::from_outputs(outputs))?;
        Ok(levels)
    }
}

/// One output of the level: either of the counters' outputs of number `k`, from 0.
fn add_output(
    alloc: Global,
    clauses: &mut ClauseList,
    aways: &[Unary],
    k: usize,
) -> Result<u32, NoMemory>
    requires some { 1 ≤ length aways.now }
    requires long { All (λ away. k < length away) aways.now }
    requires within { AllVarsWithin clauses.old.vars aways.now }
    requires room { clauses.old.vars < var_limit }
    ensures output { IfOk result (λ output. output ≡ clauses.old.vars + 1) }
    ensures vars { OnOk result (clauses.new.vars ≡ clauses.old.vars + 1) }
    ensures list { OnOk result (clauses.new.list ≡ clauses.old.list ++ map sorted_clause
        (either_due clauses.old.vars (column k aways.now)).clauses) }
    ensures err { OnErr result (Grew clauses.old clauses.new
        (either_due clauses.old.vars (column k aways.now)).clauses) }
{
    let vars = outputs_at(alloc, aways, k)?;
    let some = either(alloc, clauses, &vars)?;
    Ok(some.at_least(1).var)
}

/// All `top` outputs of the level.
fn add_outputs(
    alloc: Global,
    clauses: &mut ClauseList,
    aways: &[Unary],
    top: usize,
) -> Result<Vec<u32>, NoMemory>
    requires some { 1 ≤ length aways.now }
    requires sized { All (λ away. length away ≡ top) aways.now }
    requires within { AllVarsWithin clauses.old.vars aways.now }
    requires room { clauses.old.vars + top ≤ var_limit }
    ensures outputs { IfOk result (λ outputs. outputs.items ≡ fresh_vars clauses.old.vars top) }
    ensures vars { OnOk result (clauses.new.vars ≡ clauses.old.vars + top) }
    ensures list { OnOk result (clauses.new.list ≡ clauses.old.list ++ map sorted_clause
        (joined_blocks (output_clauses clauses.old.vars aways.now) top)) }
    ensures err { OnErr result (Grew clauses.old clauses.new
        (joined_blocks (output_clauses clauses.old.vars aways.now) top)) }
{
    let mut outputs = Vec::new(alloc);
    for k in 0..top {
        let output = add_output(alloc, clauses, aways, k)?;
        outputs.push(output)?;
    }
    Ok(outputs)
}
